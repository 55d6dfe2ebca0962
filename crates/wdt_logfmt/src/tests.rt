//! What no clause says: worked logs, and that each call succeeds where there is memory.
#![tactic(auto)]

use crate::{LogEntry, LogFile, ReadLogFail, read_log, write_batch};
use std::alloc::Global;
use std::test::Fail;
use wdt_units::Name;

/// A file `a` of two bytes, and that both are there.
const A: &[u8] = b"\x46\0\0\0\0\0\x01a\0\0\0\0\0\0\0\x02\0\0\0\0\0\0\0\0";

const BOTH: &[u8] = b"\x4D\0\0\0\0\0\0\0\0\0\0\0\0\0\0\0\x02";
/// A file `a` of 2^40 bytes.
const LARGE: &[u8] = b"\x46\0\0\0\0\0\x01a\0\0\x01\0\0\0\0\0\0\0\0\0\0\0\0\0";

// A log of one open batch of these entries.
fn log(alloc: Global, entries: &[&[u8]]) -> Result<Vec<u8>, Fail> {
    let mut body = Vec::new(alloc);
    for entry in entries {
        body.extend_from_slice(entry)?;
    }
    let mut bytes = Vec::new(alloc);
    bytes.extend_from_slice(b"WDTL\0\x01\x01\0\0\0")?;
    bytes.push((body.len() % 256) as u8)?;
    bytes.extend_from_slice(&body)?;
    bytes.push(0)?;
    Ok(bytes)
}

#[test]
fn tells_where_a_log_is_bad(rt: HostRuntime) -> Result<(), Fail> {
    let alloc = rt.alloc();
    for (label, bytes, want) in [
        ("no byte", b"".as_slice(), 0),
        ("no gate", b"WDTL\0\x01", 0),
        ("another name", b"WDTl\0\x01\0", 0),
        ("another version", b"WDTL\0\x02\x07", 0),
        ("nothing behind a gate", b"WDTL\0\x01\x01", 7),
        ("a length cut", b"WDTL\0\x01\x01\0\0\0", 7),
        ("no gate behind a batch", b"WDTL\0\x01\x01\0\0\0\0", 7),
        ("a batch cut", b"WDTL\0\x01\x01\0\0\0\x02\x46\0", 7),
        (
            "a second gate with nothing",
            b"WDTL\0\x01\x01\0\0\0\0\x01",
            12,
        ),
    ] {
        match read_log(alloc, bytes) {
            Err(ReadLogFail::BadLog { at }) => assert!(rt; at == want, "{label}"),
            _ => assert!(rt; false, "{label}"),
        }
    }
    for (label, first, second, want) in [
        ("an unknown kind", A, b"\x47".as_slice(), 35),
        ("an entry cut", A, b"\x4D\0\0\0\0\0\0\0\0\0\0\0\0\0\0\0", 35),
        (
            "a file cut",
            A,
            b"\x46\0\0\0\x01\0\x01b\0\0\0\0\0\0\0\x02\0\0\0\0\0\0\0",
            35,
        ),
        (
            "a number too large",
            A,
            b"\x46\0\x04\0\0\0\x01b\0\0\0\0\0\0\0\x02\0\0\0\0\0\0\0\0",
            35,
        ),
        (
            "a number twice",
            A,
            b"\x46\0\0\0\0\0\x01b\0\0\0\0\0\0\0\x02\0\0\0\0\0\0\0\0",
            35,
        ),
        (
            "a path twice",
            A,
            b"\x46\0\0\0\x01\0\x01a\0\0\0\0\0\0\0\x02\0\0\0\0\0\0\0\0",
            35,
        ),
        (
            "an unlawful path",
            A,
            b"\x46\0\0\0\x01\0\x01/\0\0\0\0\0\0\0\x02\0\0\0\0\0\0\0\0",
            35,
        ),
        (
            "the log's own path",
            A,
            b"\x46\0\0\0\x01\0\x05.wlog\0\0\0\0\0\0\0\x02\0\0\0\0\0\0\0\0",
            35,
        ),
        (
            "a file too large",
            A,
            b"\x46\0\0\0\x01\0\x01b\0\0\x01\0\0\0\0\x01\0\0\0\0\0\0\0\0",
            35,
        ),
        (
            "no file of that number",
            A,
            b"\x4D\0\0\0\x01\0\0\0\0\0\0\0\0\0\0\0\x02",
            35,
        ),
        (
            "no position",
            A,
            b"\x4D\0\0\0\0\0\0\0\0\0\0\0\0\0\0\0\0",
            35,
        ),
        (
            "too many positions",
            LARGE,
            b"\x4D\0\0\0\0\0\0\0\0\0\0\0\0\x04\0\0\x01",
            35,
        ),
        (
            "a position past the end",
            A,
            b"\x4D\0\0\0\0\0\0\0\0\0\0\0\x01\0\0\0\x02",
            35,
        ),
        ("nothing named yet", BOTH, A, 11),
    ] {
        match read_log(alloc, &log(alloc, &[first, second])?) {
            Err(ReadLogFail::BadLog { at }) => assert!(rt; at == want, "{label}"),
            _ => assert!(rt; false, "{label}"),
        }
    }
    match read_log(
        alloc,
        &log(
            alloc,
            &[A, BOTH, b"\x4D\0\0\0\0\0\0\0\0\0\0\0\x01\0\0\0\x01"],
        )?,
    ) {
        Err(ReadLogFail::BadLog { at }) => assert_eq!(rt; at, 52),
        _ => assert!(rt; false, "a position twice"),
    }
    Ok(())
}

#[test]
fn ends_a_log_at_a_closed_gate(rt: HostRuntime) -> Result<(), Fail> {
    let alloc = rt.alloc();
    for (bytes, end) in [
        (b"WDTL\0\x01\0".as_slice(), 6),
        (b"WDTL\0\x01\x07", 6),
        (b"WDTL\0\x01\xFB\0\0\0\x29\x46", 6),
        (b"WDTL\0\x01\x01\0\0\0\0\0", 11),
        (b"WDTL\0\x01\x01\0\0\0\0\xFF\x01", 11),
    ] {
        let view = read_log(alloc, bytes)?;
        assert!(rt; view.files.is_empty() && view.end == end);
    }
    let view = read_log(alloc, &log(alloc, &[A, BOTH])?)?;
    assert!(rt; view.files.len() == 1 && view.end == 52);
    for file in &view.files {
        assert!(rt; is_whole(file, 0, b"a", 2, 0));
    }
    Ok(())
}

fn is_whole(file: &LogFile, number: u32, path: &[u8], size: u64, stamp: u64) -> bool {
    let have = &file.have;
    file.number == number
        && have.path.bytes() == path
        && have.size == size
        && have.stamp == stamp
        && have.spans.total() == size
        && have.spans.count() == 1
}

// Appends a number in so many bytes, the high byte first.
fn push_number(bytes: &mut Vec<u8>, number: u64, count: u32) -> Result<(), Fail> {
    for at in 0..count.min(8) {
        let shift = 8 * (count.min(8) - 1 - at);
        bytes.push(((number >> shift) & 0xFF) as u8)?;
    }
    Ok(())
}

// A log of one open batch: files of 2^40 bytes, and of each as many spans of one length from its start
// on, whose places are a step apart.
fn covered(alloc: Global, files: u32, spans: u32, length: u32, step: u64) -> Result<Vec<u8>, Fail> {
    let mut bytes = Vec::new(alloc);
    bytes.extend_from_slice(b"WDTL\0\x01\x01")?;
    let size = (files as u64).saturating_mul(25 + 17 * spans as u64);
    push_number(&mut bytes, size, 4)?;
    for number in 0..files {
        bytes.push(0x46)?;
        push_number(&mut bytes, number as u64, 4)?;
        bytes.extend_from_slice(&[
            0,
            2,
            (65 + (number / 32) % 64) as u8,
            (65 + number % 32) as u8,
        ])?;
        push_number(&mut bytes, 1_099_511_627_776, 8)?;
        push_number(&mut bytes, 0, 8)?;
        let mut offset: u64 = 0;
        for _ in 0..spans {
            bytes.push(0x4D)?;
            push_number(&mut bytes, number as u64, 4)?;
            push_number(&mut bytes, offset, 8)?;
            push_number(&mut bytes, length as u64, 4)?;
            offset = offset.saturating_add(step);
        }
    }
    bytes.push(0)?;
    Ok(bytes)
}

#[test]
fn tells_where_a_log_covers_too_much(rt: HostRuntime) -> Result<(), Fail> {
    let alloc = rt.alloc();
    // One span more than 1,310,720; one file more than those that have 2^50 bytes together.
    for (label, files, spans, length, step, want) in [
        (
            "too many spans",
            1,
            1_310_721,
            1,
            2,
            11 + 25 + 17 * 1_310_720,
        ),
        (
            "too many bytes",
            1_025,
            16_384,
            67_108_864,
            67_108_864,
            11 + 1_025 * 25 + 1_024 * 17 * 16_384,
        ),
    ] {
        match read_log(alloc, &covered(alloc, files, spans, length, step)?) {
            Err(ReadLogFail::BadLog { at }) => assert!(rt; at == want, "{label}"),
            _ => assert!(rt; false, "{label}"),
        }
    }
    let view = read_log(alloc, &covered(alloc, 1, 1_310_720, 1, 2)?)?;
    assert!(rt; view.files.len() == 1 && view.end == 11 + 25 + 17 * 1_310_720);
    Ok(())
}

// Appends a batch of a file and its two halves.
fn add_halves(alloc: Global, number: u32, path: &[u8], into: &mut Vec<u8>) -> Result<(), Fail> {
    let path = Name::read(alloc, path)?;
    let entries = [
        LogEntry::File {
            number,
            path,
            size: 8,
            stamp: 7,
        },
        LogEntry::Covered {
            number,
            offset: 4,
            length: 4,
        },
        LogEntry::Covered {
            number,
            offset: 0,
            length: 4,
        },
    ];
    write_batch(&entries, into)?;
    Ok(())
}

#[test]
fn reads_what_was_written(rt: HostRuntime) -> Result<(), Fail> {
    let alloc = rt.alloc();
    let mut bytes = Vec::new(alloc);
    bytes.extend_from_slice(b"WDTL\0\x01\0")?;
    for (number, path, gate) in [(5, b"a".as_slice(), 6), (3, b"c/d", 69), (4, b"b", 134)] {
        let before = bytes.len();
        add_halves(alloc, number, path, &mut bytes)?;
        let still = read_log(alloc, &bytes)?;
        assert!(rt; still.end as usize == gate && before == gate + 1 && gate < bytes.len());
        bytes[gate] = 1;
    }
    let view = read_log(alloc, &bytes)?;
    assert!(rt; view.files.len() == 3 && view.end == 197);
    assert!(rt; is_whole(&view.files[0], 3, b"c/d", 8, 7));
    assert!(rt; is_whole(&view.files[1], 4, b"b", 8, 7));
    assert!(rt; is_whole(&view.files[2], 5, b"a", 8, 7));
    let have = view.have(alloc)?;
    let files = have.files();
    assert!(rt; have.in_order() && files.len() == 3);
    assert!(rt;
        files[0].path.bytes() == b"a".as_slice() && files[2].path.bytes() == b"c/d".as_slice()
    );
    Ok(())
}

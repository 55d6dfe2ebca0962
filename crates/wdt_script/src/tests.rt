//! What no clause says: worked scripts, what is told of a bad line, and that memory is enough.
use crate::{Event, MAX_LINES, ScriptFail, expected_at, line_at, read_script};
use std::alloc::Global;
use std::test::Fail;
use wdt_units::Lane;

// A text, and the first event that it says on two lanes, or the number of its first bad line.
const TEXTS: [(&str, Result<Event, u32>); 39] = [
    ("s 0", Ok(Event::S(Lane(0), 1))),
    ("s 1 1000000\n", Ok(Event::S(Lane(1), 1_000_000))),
    ("r 1", Ok(Event::R(Lane(1), 1))),
    ("r 0 2", Ok(Event::R(Lane(0), 2))),
    (
        "cut 1 0 4294967295",
        Ok(Event::Cut(Lane(1), 0, 4_294_967_295)),
    ),
    ("deny 1", Ok(Event::Deny(Lane(1)))),
    ("refuse 0", Ok(Event::Refuse(Lane(0)))),
    ("stop 1 4294967295", Ok(Event::Stop(1, 4_294_967_295))),
    ("settle", Ok(Event::Settle)),
    ("\n# a remark\n\nresume\nsettle", Ok(Event::Resume)),
    ("s 0\ncut 0 5", Err(2)),
    ("# a remark\n\n s 0", Err(3)),
    ("s", Err(1)),
    ("s ", Err(1)),
    ("s 2", Err(1)),
    ("s 0 0", Err(1)),
    ("s 0 1000001", Err(1)),
    ("s 0 1 1", Err(1)),
    ("s 0 ", Err(1)),
    ("s  0", Err(1)),
    ("s 00", Err(1)),
    ("s +0", Err(1)),
    ("s 0 01", Err(1)),
    ("s 0\r\n", Err(1)),
    ("s\t0", Err(1)),
    ("S 0", Err(1)),
    ("r 256", Err(1)),
    ("r 18446744073709551616", Err(1)),
    ("cut 0 4294967296 0", Err(1)),
    ("cut 0 0 4294967296", Err(1)),
    ("cut 0 0 0 0", Err(1)),
    ("deny", Err(1)),
    ("refuse 0 1", Err(1)),
    ("stop 0 0", Err(1)),
    ("stop 1000001 0", Err(1)),
    ("stop 1 4294967296", Err(1)),
    ("settle 1", Err(1)),
    ("resume ", Err(1)),
    ("settled", Err(1)),
];

// The first event of a text, or the number of its first bad line.
fn first_of(alloc: Global, text: &[u8]) -> Result<Option<Event>, u32> {
    match read_script(alloc, text, 2) {
        Ok(events) => Ok(events.first().copied()),
        Err(ScriptFail::BadScript { line }) => Err(line),
        Err(ScriptFail::NoMemory) => Ok(None),
    }
}

#[test]
fn each_form_is_read_and_each_bad_line_named(rt: HostRuntime) {
    for (text, want) in TEXTS {
        let want = match want {
            Ok(event) => Ok(Some(event)),
            Err(line) => Err(line),
        };
        assert_eq!(rt; first_of(rt.alloc(), text.as_bytes()), want, "{text:?}");
    }
    assert_eq!(rt; first_of(rt.alloc(), b"#\xFF\n\xFF"), Err(2));
}

// So many times the byte, and a line behind them.
fn many(alloc: Global, byte: u8, count: usize, line: &[u8]) -> Result<Vec<u8>, Fail> {
    let mut text = Vec::new(alloc);
    text.resize(count, byte)?;
    text.extend_from_slice(line)?;
    Ok(text)
}

#[test]
fn a_script_has_a_greatest_size(rt: HostRuntime) -> Result<(), Fail> {
    for (byte, count, line, want) in [
        (b'#', 80, b"\nsettle".as_slice(), Ok(Some(Event::Settle))),
        (b'#', 81, b"\nsettle", Err(1)),
        (b'\n', 65_535, b"settle\n", Ok(Some(Event::Settle))),
        (b'\n', 65_536, b"", Ok(None)),
        (b'\n', 65_536, b"\n", Err(65_537)),
        (b'\n', 65_536, b"settle", Err(65_537)),
    ] {
        let text = many(rt.alloc(), byte, count, line)?;
        assert_eq!(rt; first_of(rt.alloc(), &text), want, "{count}");
    }
    Ok(())
}

#[test]
fn a_bad_line_is_told_with_what_was_expected(rt: HostRuntime) {
    let text = b"settle\n\ncut 0 5\ndeny 1";
    for (number, line) in [
        (1, b"settle".as_slice()),
        (2, b""),
        (3, b"cut 0 5"),
        (4, b"deny 1"),
        (5, b""),
    ] {
        assert_eq!(rt; line_at(text, number), line, "{number}");
    }
    for (number, line, start) in [
        (3, b"cut 0 5".as_slice(), "cut LANE DOWN UP"),
        (1, b"s 0 0", "s LANE"),
        (1, b"copy", "s, r, cut"),
        (MAX_LINES + 1, b"settle", "at most 65536 lines"),
    ] {
        let expected = expected_at(number, line);
        assert!(rt; expected.starts_with(start), "{expected}");
    }
}

//! What no clause says: that copies succeed, and worked examples of their lines.
use crate::fixtures::{Failing, Listed, NOTHING, copy_over_pipes};
use crate::folder_fixtures::{new_folder, status_of};
use crate::tcp_fixtures::{own_host, receive_at, send_to};
use std::alloc::Global;
use std::test::Fail;
use std::{fs, thread};
use wdt_receiver_fsm::RecvEvent;
use wdt_units::{Lane, Name};

// The files of a small project: their paths and sizes.
const PROJECT: [(&str, usize); 12] = [
    ("Cargo.toml", 312),
    ("LICENSE", 1068),
    ("README.md", 4821),
    ("assets/logo.bin", 262_144),
    ("assets/table.csv", 1_048_577),
    ("docs/guide.md", 20_480),
    ("src/a.rs", 0),
    ("src/lib.rs", 9173),
    ("src/main.rs", 2750),
    ("src/util/mod.rs", 640),
    ("tests/big.bin", 40_000_000),
    ("tests/small.txt", 1),
];

// So many bytes: a number of the file's own, but at the start of each piece the piece's.
fn pattern(alloc: Global, number: u8, count: usize) -> Result<Vec<u8>, Fail> {
    let mut bytes = vec![in alloc; number; count]?;
    for (at, piece) in bytes.chunks_mut(65_536).enumerate() {
        if let [first, ..] = piece {
            *first = (at % 256) as u8;
        }
    }
    Ok(bytes)
}

#[test]
fn a_project_is_copied_on_four_lanes(rt: HostRuntime) -> Result<(), Fail> {
    let alloc = rt.alloc();
    let mut contents = Vec::new(alloc);
    for (number, (_, count)) in PROJECT.iter().enumerate() {
        contents.push(pattern(alloc, (number % 256) as u8, *count)?)?;
    }
    let mut files: Vec<Listed<'_>> = Vec::new(alloc);
    for ((path, _), bytes) in PROJECT.iter().zip(&contents) {
        files.push((*path, bytes.as_slice()))?;
    }
    let words = ["copy", "SRC", "DST"];
    let copied = copy_over_pipes(&rt, alloc, &words, &files, &NOTHING)?;
    assert_eq!(rt; copied.status.code(), 0);
    let told =
        b"files 12\nblocks 14\nbytes 41349966\nconnections 4\nrequeued 0\nclosed 0\nsessions 1\nok\n";
    assert_eq!(rt; copied.lines.as_slice(), told.as_slice());
    let depot = copied.depot.ok_or("no depot")?;
    for (path, bytes) in &files {
        let path = Name::read(alloc, path.as_bytes())?;
        assert!(rt; depot.shown(&path) == Some(*bytes));
    }
    Ok(())
}

#[test]
fn a_source_that_fails_ends_both_ends(rt: HostRuntime) -> Result<(), Fail> {
    let files: [Listed<'_>; 2] = [("a", b"hi"), ("b", b"yo")];
    let words = ["copy", "SRC", "DST", "--lanes", "1"];
    let fails = Failing {
        sources: &[3],
        ..NOTHING
    };
    let copied = copy_over_pipes(&rt, rt.alloc(), &words, &files, &fails)?;
    assert_eq!(rt; copied.status.code(), 2);
    let told =
        b"files 2\nblocks 1\nbytes 2\nconnections 1\nrequeued 0\nclosed 0\nsessions 1\nsource fault\n";
    assert_eq!(rt; copied.lines.as_slice(), told.as_slice());
    assert!(rt; copied.receiver.contains(&RecvEvent::Abort(Lane(0), 2)));
    Ok(())
}

#[test]
fn a_lane_that_never_connects_is_closed(rt: HostRuntime) -> Result<(), Fail> {
    let files: [Listed<'_>; 1] = [("a", b"hi")];
    let words = ["copy", "SRC", "DST", "--lanes", "2"];
    let dials = [1, 2, 3, 4, 5, 6, 7, 8].map(|number| (Lane(0), number));
    let fails = Failing {
        dials: &dials,
        ..NOTHING
    };
    let copied = copy_over_pipes(&rt, rt.alloc(), &words, &files, &fails)?;
    assert_eq!(rt; copied.status.code(), 0);
    let told = b"files 1\nblocks 1\nbytes 2\nconnections 1\nrequeued 0\nclosed 1\nsessions 1\nok\n";
    assert_eq!(rt; copied.lines.as_slice(), told.as_slice());
    Ok(())
}

// Lanes that are served one after the other, or in turns by one thread, wait here for the lane that is held
// in one of the two runs, and it is closed.
#[test]
fn lanes_run_side_by_side(rt: HostRuntime) -> Result<(), Fail> {
    let files: [Listed<'_>; 2] = [("a", b"x"), ("b", b"y")];
    let words = ["copy", "SRC", "DST", "--lanes", "2"];
    let told = b"files 2\nblocks 2\nbytes 2\nconnections 2\nrequeued 0\nclosed 0\nsessions 1\nok\n";
    for held in [Lane(0), Lane(1)] {
        let fails = Failing {
            held: Some(held),
            ..NOTHING
        };
        let copied = copy_over_pipes(&rt, rt.alloc(), &words, &files, &fails)?;
        assert_eq!(rt; copied.lines.as_slice(), told.as_slice());
    }
    Ok(())
}

// What is sent over TCP, in blocks of two bytes.
const SENT: [Listed<'static>; 3] = [("a", b"hi"), ("b/c", b"hello"), ("d", b"")];

const SEND: [&str; 8] = [
    "send", "SRC", "HOST", "7000", "--lanes", "2", "--block", "2",
];

const RECV: [&str; 6] = ["recv", "DST", "HOST", "7000", "--lanes", "2"];

#[test]
fn a_send_and_a_receiver_copy_over_tcp(rt: HostRuntime) -> Result<(), Fail> {
    let alloc = rt.alloc();
    let host = own_host(&rt)?;
    let (sent, received) = thread::join(
        &rt,
        || send_to(&rt, alloc, &SEND, &host, &SENT),
        || receive_at(&rt, alloc, &RECV, &host),
    );
    let sent = sent.ok_or("no sender")?;
    let received = received.ok_or("no receiver")?;
    assert_eq!(rt; (sent.status.code(), received.status.code()), (0, 0));
    let told = b"files 3\nblocks 5\nbytes 7\nconnections 2\nrequeued 0\nok\n";
    assert_eq!(rt; sent.lines.as_slice(), told.as_slice());
    let told = b"blocks 5\nbytes 7\nconnections 2\nclosed 0\nok\n";
    assert_eq!(rt; received.lines.as_slice(), told.as_slice());
    let depot = received.depot.ok_or("no depot")?;
    for (path, bytes) in &SENT {
        let path = Name::read(alloc, path.as_bytes())?;
        assert!(rt; depot.shown(&path) == Some(*bytes));
    }
    Ok(())
}

#[test]
fn a_folder_is_sent_over_tcp(rt: HostRuntime) -> Result<(), Fail> {
    let alloc = rt.alloc();
    let folder = new_folder(&rt)?;
    let root = folder.as_str();
    let source = format!(in alloc; "{root}/source")?;
    let dest = format!(in alloc; "{root}/dest")?;
    let (from, to) = (source.as_str(), dest.as_str());
    fs::create_dir(&rt, from)?;
    fs::write(&rt, format!(in alloc; "{from}/a")?.as_str(), b"hi")?;
    let host = own_host(&rt)?;
    let host = host.as_str();
    let (sent, received) = thread::join(
        &rt,
        || status_of(&rt, alloc, &["send", from, host, "7100", "--lanes", "2"]),
        || status_of(&rt, alloc, &["recv", to, host, "7100", "--lanes", "2"]),
    );
    assert_eq!(rt; (sent, received), (Some(0), Some(0)));
    let copied = fs::read(&rt, format!(in alloc; "{to}/a")?.as_str())?;
    assert_eq!(rt; copied.as_slice(), b"hi".as_slice());
    fs::remove_dir_all(&rt, root)?;
    Ok(())
}

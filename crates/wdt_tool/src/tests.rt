//! What no clause says: that the runs succeed, and worked examples of their lines.
use crate::fixtures::{Faults, LOG, run, run_failing};
use std::test::Fail;

#[test]
fn trees_are_copied_and_reported(rt: HostRuntime) -> Result<(), Fail> {
    let trees: [(&[(&str, &[u8])], &[u8]); 3] = [
        (
            &[],
            b"files 0\nblocks 0\nbytes 0\nconnections 1\nrequeued 0\nclosed 0\nsessions 1\nok\n",
        ),
        (
            &[("a", b"hi")],
            b"files 1\nblocks 1\nbytes 2\nconnections 1\nrequeued 0\nclosed 0\nsessions 1\nok\n",
        ),
        (
            &[("e", b"")],
            b"files 1\nblocks 1\nbytes 0\nconnections 1\nrequeued 0\nclosed 0\nsessions 1\nok\n",
        ),
    ];
    for (files, text) in trees {
        let (status, lines) = run(&rt, rt.alloc(), &["rehearse", "SRC"], files, b"")?;
        assert_eq!(rt; status, 0);
        assert_eq!(rt; lines.as_slice(), text);
    }
    Ok(())
}

#[test]
fn plans_list_what_is_lacking(rt: HostRuntime) -> Result<(), Fail> {
    let words = ["plan", "SRC", "DST", "--block", "4"];
    let (status, lines) = run(
        &rt,
        rt.alloc(),
        &words,
        &[("a", b"0123"), ("b", b"01234")],
        b"",
    )?;
    assert_eq!(rt; status, 0);
    assert_eq!(rt;
        lines.as_slice(),
        b"0 4 a\n0 4 b\n4 1 b\nblocks 3\nbytes 9\nok\n".as_slice()
    );
    let plans: [(&str, &[u8], &[u8], u8, &[u8]); 4] = [
        // Nothing of the file is lacking by the log.
        ("a", b"hi", LOG, 0, b"blocks 0\nbytes 0\nok\n"),
        // The log has another size.
        ("a", b"hi!", LOG, 7, b"refused: stale a\n"),
        ("a", b"hi", b"WDTL\0\x01\x01", 7, b"refused: bad log 7\n"),
        // A path is printed on one line.
        (
            "a\\b\nc",
            b"hi",
            b"",
            0,
            b"0 2 a\\\\b\\nc\nblocks 1\nbytes 2\nok\n",
        ),
    ];
    for (path, bytes, log, status, text) in plans {
        let (ended, lines) = run(&rt, rt.alloc(), &words, &[(path, bytes)], log)?;
        assert_eq!(rt; ended, status);
        assert_eq!(rt; lines.as_slice(), text);
    }
    Ok(())
}

#[test]
fn logs_are_shown(rt: HostRuntime) -> Result<(), Fail> {
    let logs: [(&[u8], u8, &[u8]); 5] = [
        (LOG, 0, b"file 0 2 0 a\nrange 0 2\nend 52\nok\n"),
        (b"", 0, b"no log\nok\n"),
        // A gate that isn't open ends the log.
        (b"WDTL\0\x01\x07", 0, b"end 6\nok\n"),
        (b"WDTL\0\x02\x07", 7, b"refused: bad log 0\n"),
        (b"WDTL\0\x01\x01", 7, b"refused: bad log 7\n"),
    ];
    for (log, status, text) in logs {
        let (ended, lines) = run(&rt, rt.alloc(), &["log", "DST"], &[], log)?;
        assert_eq!(rt; ended, status);
        assert_eq!(rt; lines.as_slice(), text);
    }
    Ok(())
}

const NONE: Faults = Faults {
    source: false,
    depot: false,
    sink: false,
};

const SOURCE: Faults = Faults {
    source: true,
    ..NONE
};

const DEPOT: Faults = Faults {
    depot: true,
    ..NONE
};

const SINK: Faults = Faults { sink: true, ..NONE };

const ALL: Faults = Faults {
    source: true,
    depot: true,
    sink: true,
};

const PLAN: &[&str] = &["plan", "SRC", "DST", "--block", "1"];

const LOG_OF: &[&str] = &["log", "DST"];

const REHEARSE: &[&str] = &["rehearse", "SRC"];

const LONGEST: &[u8] = &[b'a'; 1024];

const TOO_LONG: &[u8] = &[b'a'; 1025];

const EMPTY: &[u8] = b"WDTL\0\x01\x07";

const BAD: &[u8] = b"WDTL\0\x01\x01";

// Words, the paths that the source lists, the size of each, the log, what goes wrong; the status and the
// lines.
type Row = (
    &'static [&'static str],
    &'static [&'static [u8]],
    u64,
    &'static [u8],
    Faults,
    u8,
    &'static [u8],
);

const ROWS: [Row; 18] = [
    (LOG_OF, &[], 0, EMPTY, NONE, 0, b"end 6\nok\n"),
    (PLAN, &[LONGEST], 0, EMPTY, DEPOT, 3, b"disk fault\n"),
    (&["copie"], &[], 0, EMPTY, ALL, 1, b""),
    (
        &["plan", "a", "b", "--block", "0"],
        &[],
        0,
        EMPTY,
        NONE,
        1,
        b"usage\n",
    ),
    (REHEARSE, &[], 0, EMPTY, SOURCE, 2, b"source fault\n"),
    (REHEARSE, &[b"a"], 1, EMPTY, NONE, 2, b"source fault\n"),
    (LOG_OF, &[], 0, EMPTY, DEPOT, 3, b"disk fault\n"),
    (
        REHEARSE,
        &[b"x/../y"],
        0,
        EMPTY,
        NONE,
        7,
        b"refused: bad path 0\n",
    ),
    (
        REHEARSE,
        &[b".wlog"],
        0,
        EMPTY,
        NONE,
        7,
        b"refused: reserved 0\n",
    ),
    (
        REHEARSE,
        &[TOO_LONG],
        0,
        EMPTY,
        NONE,
        7,
        b"refused: bad path 0\n",
    ),
    (
        PLAN,
        &[b"a"],
        1_048_577,
        EMPTY,
        NONE,
        7,
        b"refused: too many blocks 1048577\n",
    ),
    (LOG_OF, &[], 0, EMPTY, SINK, 8, b""),
    // A source that fails comes before its listing, a listing before the depot, the depot before its
    // log, the log before the plan, and each before a sink that fails.
    (PLAN, &[b"a", b"a"], 0, BAD, SOURCE, 2, b"source fault\n"),
    (PLAN, &[b"a", b"a"], 0, BAD, DEPOT, 7, b"refused: twice 1\n"),
    (PLAN, &[b"a"], 0, BAD, DEPOT, 3, b"disk fault\n"),
    (
        PLAN,
        &[b"a"],
        1_048_577,
        BAD,
        NONE,
        7,
        b"refused: bad log 7\n",
    ),
    (PLAN, &[b"a"], 0, BAD, SINK, 7, b""),
    (PLAN, &[b"a"], 1, EMPTY, SINK, 8, b""),
];

// Each status but that of memory, and which of two causes is answered.
#[test]
fn each_status_is_reached(rt: HostRuntime) -> Result<(), Fail> {
    for (words, paths, size, log, faults, status, text) in ROWS {
        let (ended, lines) = run_failing(rt.alloc(), words, paths, size, log, faults)?;
        assert_eq!(rt; ended, status);
        assert_eq!(rt; lines.as_slice(), text);
    }
    Ok(())
}

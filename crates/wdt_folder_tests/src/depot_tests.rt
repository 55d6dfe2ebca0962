//! What a depot of a real folder calls, and in which order.
use crate::script::Step::{
    Arm, Crowd, Exchange, Fail as Failing, File, Hold, Holds, Link, Make, Place, Read, Remake,
    RemoveRoot, Reopen, Says, SecondName, Strike, Sync, Write,
};
use crate::script::{Step, play};
use std::test::Fail;

const ENOENT: i32 = 2;

const EIO: i32 = 5;

const ENOMEM: i32 = 12;

const EACCES: i32 = 13;

// A log of seven bytes that was there is put in place anew.
const ANEW: &str = "ok: new .wlog.new, write 0..7 .wlog.new, write 4..7 .wlog.new, sync .wlog.new, \
        move .wlog.new, to .wlog, fsync .., fsync ., sync .wlog.new";

const ENTRIES_AND_FILES_ARE_STABLE_BEFORE_THE_LOG: [(Step, &str); 15] = [
    (Make(".wlog.new"), "ok: new .wlog.new"),
    // The root and what it is in may have new entries of an earlier run.
    (
        Write(".wlog.new", 0, "seven.."),
        "ok: fsync .., fsync ., write 0..7 .wlog.new, write 4..7 .wlog.new",
    ),
    (Sync(".wlog.new"), "ok: sync .wlog.new"),
    (
        Place(".wlog.new", ".wlog"),
        "ok: move .wlog.new, to .wlog, fsync .",
    ),
    (
        Make("sub/deep/a"),
        "ok: mkdir sub, mkdir sub/deep, new sub/deep/a",
    ),
    (Write("sub/deep/a", 0, "hi"), "ok: write 0..2 sub/deep/a"),
    (Sync("sub/deep/a"), "ok"),
    (Make("sub/b"), "ok: new sub/b"),
    (
        Write(".wlog", 7, "more"),
        "ok: sync sub/deep/a, fsync ., fsync sub, fsync sub/deep, write 7..11 .wlog.new",
    ),
    (Sync(".wlog"), "ok: sync .wlog.new"),
    // The gate.
    (Write(".wlog", 6, "1"), "ok: write 6..7 .wlog.new"),
    (Sync(".wlog"), "ok: sync .wlog.new"),
    // A folder that is known ends the way up.
    (Make("sub/deep/c"), "ok: new sub/deep/c"),
    (Sync(".wlog"), "ok: fsync sub/deep, sync .wlog.new"),
    (Holds(".wlog", "seven.1more"), "ok"),
];

#[test]
fn entries_and_files_are_stable_before_the_log(rt: HostRuntime) -> Result<(), Fail> {
    assert_eq!(rt;
        play(&rt, &ENTRIES_AND_FILES_ARE_STABLE_BEFORE_THE_LOG)?.as_str(),
        ""
    );
    Ok(())
}

const FILES_ARE_SYNCED_TOGETHER_BEFORE_A_LOG_IS_TOUCHED: [(Step, &str); 35] = [
    (Make(".wlog"), "ok: new .wlog"),
    (Make("a"), "ok: new a"),
    (Write("a", 0, "hi"), "ok: write 0..2 a"),
    (Make("b"), "ok: new b"),
    (Write("b", 0, "hi"), "ok: write 0..2 b"),
    (Make("c"), "ok: new c"),
    (Write("c", 0, "hi"), "ok: write 0..2 c"),
    (Sync("a"), "ok"),
    (Sync("b"), "ok"),
    // What is written meanwhile is synced, too.
    (Write("b", 1, "o"), "ok: write 1..2 b"),
    (Sync("a"), "ok"),
    (
        Write(".wlog", 0, "log"),
        "ok: sync a, sync b, fsync .., fsync ., write 0..3 .wlog",
    ),
    (Sync("c"), "ok"),
    (Sync(".wlog"), "ok: sync c, sync .wlog"),
    (Write(".wlog", 3, "1"), "ok: write 3..4 .wlog"),
    // What was synced and not written since isn't synced again.
    (Sync("a"), "ok"),
    (Write(".wlog", 3, "1"), "ok: write 3..4 .wlog"),
    (Write("a", 0, "x"), "ok: write 0..1 a"),
    (Sync("a"), "ok"),
    (Make(".wlog.new"), "ok: sync a, new .wlog.new"),
    (Write("b", 0, "x"), "ok: write 0..1 b"),
    (Sync("b"), "ok"),
    (
        Place("c", "d"),
        "ok: sync b, fsync ., move c, to d, fsync .",
    ),
    // Not what stood at the path of a new file, but what is put in place under another name.
    (Write("a", 0, "y"), "ok: write 0..1 a"),
    (Sync("a"), "ok"),
    (Make("a"), "ok: unlink a, new a"),
    (Write("d", 0, "x"), "ok: write 0..1 c"),
    (Sync("d"), "ok"),
    (
        Write(".wlog", 3, "2"),
        "ok: sync c, fsync ., write 3..4 .wlog",
    ),
    // A new session knows of no sync that was asked for.
    (Write("b", 0, "y"), "ok: write 0..1 b"),
    (Sync("b"), "ok"),
    (Reopen, "ok"),
    (
        Write(".wlog", 4, "3"),
        "ok: fsync .., fsync ., write 4..5 .wlog",
    ),
    (Holds(".wlog", "log23"), "ok"),
    (Holds("d", "xi"), "ok"),
];

#[test]
fn files_are_synced_together_before_a_log_is_touched(rt: HostRuntime) -> Result<(), Fail> {
    assert_eq!(rt;
        play(&rt, &FILES_ARE_SYNCED_TOGETHER_BEFORE_A_LOG_IS_TOUCHED)?.as_str(),
        ""
    );
    Ok(())
}

const A_FILE_IS_SYNCED_BEFORE_IT_IS_CLOSED: [(Step, &str); 20] = [
    (Make("a"), "ok: new a"),
    (Write("a", 0, "x"), "ok: write 0..1 a"),
    (Crowd(255), "ok"),
    // All that are due are synced together, and so the next to be closed needs no sync.
    (Write("5", 0, "x"), "ok: write 0..1 5"),
    (Sync("7"), "ok"),
    (Make("b"), "ok: sync a, sync 5, sync 7, new b"),
    (Make("c"), "ok: new c"),
    // It isn't synced again behind its opening, unless it is written.
    (Sync("a"), "ok"),
    (Make(".wlog"), "ok: fsync .., fsync ., new .wlog"),
    (Write("a", 0, "y"), "ok: write 0..1 a"),
    (Sync("a"), "ok"),
    (
        Write(".wlog", 0, "x"),
        "ok: sync a, fsync ., write 0..1 .wlog",
    ),
    // Also where a call only looks.
    (Reopen, "ok"),
    (Sync("a"), "ok"),
    (Crowd(255), "ok"),
    (Read("d", ""), "none: sync a"),
    (Write("a", 0, "y"), "ok: write 0..1 a"),
    (Failing("sync a", EIO), "ok"),
    (Crowd(256), "failed"),
    (Make("d"), "barred"),
];

#[test]
fn a_file_is_synced_before_it_is_closed(rt: HostRuntime) -> Result<(), Fail> {
    assert_eq!(rt;
        play(&rt, &A_FILE_IS_SYNCED_BEFORE_IT_IS_CLOSED)?.as_str(),
        ""
    );
    Ok(())
}

const A_LOG_THAT_WAS_THERE_IS_PUT_IN_PLACE_ANEW: [(Step, &str); 15] = [
    (File(".wlog", "seven.."), "ok"),
    (Read(".wlog", "seven.."), "ok"),
    (Sync(".wlog"), ANEW),
    (Sync(".wlog"), "ok: sync .wlog.new"),
    (Read(".wlog", "seven.."), "ok"),
    (Read(".wlog.new", ""), "none"),
    (Write(".wlog", 6, "1"), "ok: write 6..7 .wlog.new"),
    (Holds(".wlog", "seven.1"), "ok"),
    // A new session.
    (Reopen, "ok"),
    (Sync(".wlog"), ANEW),
    (Reopen, "ok"),
    (Failing("sync .wlog.new", EIO), "ok"),
    (
        Sync(".wlog"),
        "failed: new .wlog.new, write 0..7 .wlog.new, write 4..7 .wlog.new, sync .wlog.new",
    ),
    (Sync(".wlog"), "barred"),
    (Holds(".wlog", "seven.1"), "ok"),
];

#[test]
fn a_log_that_was_there_is_put_in_place_anew(rt: HostRuntime) -> Result<(), Fail> {
    assert_eq!(rt;
        play(&rt, &A_LOG_THAT_WAS_THERE_IS_PUT_IN_PLACE_ANEW)?.as_str(),
        ""
    );
    Ok(())
}

const NOTHING_IS_CHANGED_BEHIND_A_SYNC_THAT_FAILED: [(Step, &str); 35] = [
    (Make(".wlog"), "ok: new .wlog"),
    (Make("a"), "ok: new a"),
    (Write("a", 0, "hi"), "ok: write 0..2 a"),
    (Sync("a"), "ok"),
    (Failing("sync a", EIO), "ok"),
    (Write(".wlog", 0, "x"), "failed: sync a"),
    // A second sync might go well.
    (Write(".wlog", 0, "x"), "barred"),
    (Sync(".wlog"), "barred"),
    (Sync("a"), "barred"),
    (Write("a", 0, "x"), "barred"),
    (Make("b"), "barred"),
    (Place("a", "b"), "barred"),
    (Says("syncing", "a: Input/output error (os error 5)"), "ok"),
    (Read("a", "hi"), "ok"),
    (Holds(".wlog", ""), "ok"),
    (Reopen, "ok"),
    // The folder of a file.
    (Make(".wlog"), "ok: unlink .wlog, new .wlog"),
    (Failing("fsync .", EIO), "ok"),
    (Write(".wlog", 0, "x"), "failed: fsync .., fsync ."),
    (Sync(".wlog"), "barred"),
    (Holds(".wlog", ""), "ok"),
    (Reopen, "ok"),
    // What is to be stable before a file is put in place.
    (Sync("a"), "ok"),
    (Failing("sync a", EIO), "ok"),
    (Place("a", "b"), "failed: sync a"),
    (Holds("a", "hi"), "ok"),
    (Reopen, "ok"),
    // The folder of a file put in place.
    (Failing("fsync .", EIO), "ok"),
    (
        Place(".wlog", "c"),
        "failed: move .wlog, to c, fsync .., fsync .",
    ),
    (Make("b"), "barred"),
    (Reopen, "ok"),
    // A file that couldn't be made anew: what stands there is synced yet.
    (Sync("a"), "ok"),
    (Failing("unlink a", EIO), "ok"),
    (Make("a"), "failed: unlink a"),
    (Make(".wlog"), "ok: sync a, fsync .., fsync ., new .wlog"),
];

#[test]
fn nothing_is_changed_behind_a_sync_that_failed(rt: HostRuntime) -> Result<(), Fail> {
    assert_eq!(rt;
        play(&rt, &NOTHING_IS_CHANGED_BEHIND_A_SYNC_THAT_FAILED)?.as_str(),
        ""
    );
    Ok(())
}

const A_STOP_LETS_NO_CALL_PASS: [(Step, &str); 20] = [
    (Make("a"), "ok: new a"),
    (Arm(2), "ok"),
    (Write("a", 0, "hi"), "ok: write 0..2 a"),
    (Make("b"), "barred"),
    (Make("b"), "barred"),
    (Read("a", "hi"), "barred"),
    (Write("a", 0, "x"), "barred"),
    (Place("a", "b"), "barred"),
    (Reopen, "ok"),
    (Read("b", ""), "none"),
    (Read("a", "hi"), "ok"),
    (Arm(1), "ok"),
    (Write("a", 0, "x"), "barred"),
    (Reopen, "ok"),
    (Arm(1), "ok"),
    (Place("a", "b"), "barred"),
    (Reopen, "ok"),
    (Read("a", "hi"), "ok"),
    (Strike("a"), "barred"),
    (Holds("a", "hi"), "ok"),
];

#[test]
fn a_stop_lets_no_call_pass(rt: HostRuntime) -> Result<(), Fail> {
    assert_eq!(rt; play(&rt, &A_STOP_LETS_NO_CALL_PASS)?.as_str(), "");
    Ok(())
}

const A_CALL_THAT_A_STOP_BARS_SYNCS_NOTHING: [(Step, &str); 12] = [
    (Make(".wlog"), "ok: new .wlog"),
    (Make("a"), "ok: new a"),
    (Arm(4), "ok"),
    (Sync("a"), "ok"),
    // It counts as one call.
    (
        Write(".wlog", 0, "x"),
        "ok: sync a, fsync .., fsync ., write 0..1 .wlog",
    ),
    (Sync("a"), "ok"),
    (Write(".wlog", 0, "y"), "barred"),
    (Sync(".wlog"), "barred"),
    (Make(".wlog"), "barred"),
    (Make(".wlog.new"), "barred"),
    (Place("a", "b"), "barred"),
    (Holds(".wlog", "x"), "ok"),
];

#[test]
fn a_call_that_a_stop_bars_syncs_nothing(rt: HostRuntime) -> Result<(), Fail> {
    assert_eq!(rt;
        play(&rt, &A_CALL_THAT_A_STOP_BARS_SYNCS_NOTHING)?.as_str(),
        ""
    );
    Ok(())
}

const NOTHING_OUTSIDE_IS_TOUCHED: [(Step, &str); 26] = [
    (File("aside", "kept"), "ok"),
    // A link on the way.
    (Link(".", "way"), "ok"),
    (Make("way/x"), "failed"),
    (Read("way/aside", "kept"), "failed"),
    (Place("aside", "way/x"), "failed: fsync .., fsync ."),
    (Place("way/aside", "x"), "failed"),
    // A link, another name, a folder and a file at a file's path.
    (Link("aside", "link"), "ok"),
    (Read("link", "kept"), "failed"),
    (Make("link"), "ok: unlink link, new link"),
    (Write("link", 0, "new"), "ok: write 0..3 link"),
    (SecondName("aside", "second"), "ok"),
    (Make("second"), "ok: unlink second, new second"),
    (Make("folder/x"), "ok: mkdir folder, new folder/x"),
    (Make("folder"), "failed"),
    (Read("folder", ""), "failed"),
    (Place("folder", "x"), "failed: fsync folder, fsync ."),
    (Make("link/x"), "failed"),
    (Holds("aside", "kept"), "ok"),
    // A file that isn't the one that was looked at.
    (File("other", "other"), "ok"),
    (Exchange("other"), "ok"),
    (Read("other", "kept"), "failed"),
    (Read("other", "kept"), "ok"),
    (File("aside", "again"), "ok"),
    (Exchange("other"), "ok"),
    (Write("other", 0, "new"), "failed"),
    (Holds("other", "again"), "ok"),
];

#[test]
fn nothing_outside_is_touched(rt: HostRuntime) -> Result<(), Fail> {
    assert_eq!(rt; play(&rt, &NOTHING_OUTSIDE_IS_TOUCHED)?.as_str(), "");
    Ok(())
}

const A_SPOT_KEEPS_ITS_FILE: [(Step, &str); 15] = [
    (Read("sub/a", ""), "none"),
    (Write("sub/a", 0, "x"), "failed"),
    (Says("opening", "sub/a: entity not found"), "ok"),
    (Place("a", "b"), "failed: fsync .., fsync ."),
    (Make("a"), "ok: new a"),
    (Write("a", 2, "cd"), "ok: write 2..4 a"),
    (Read("a", "\0\0cd"), "ok"),
    (Write("a", (1 << 41) - 1, "xy"), "barred"),
    (Remake("a", "new"), "ok: unlink a, new a, write 0..3 a"),
    (Holds("a", "new"), "ok"),
    // It is neither closed nor opened again.
    (Failing("open a", EIO), "ok"),
    (Hold("a", 300), "ok"),
    (Place("a", "0"), "ok: fsync ., move a, to 0, fsync ."),
    (Read("0", "new"), "ok"),
    (Read("a", ""), "none"),
];

#[test]
fn a_spot_keeps_its_file(rt: HostRuntime) -> Result<(), Fail> {
    assert_eq!(rt; play(&rt, &A_SPOT_KEEPS_ITS_FILE)?.as_str(), "");
    Ok(())
}

const WANT_OF_MEMORY_HAS_CHANGED_NOTHING: [(Step, &str); 9] = [
    (Failing("new a", ENOMEM), "ok"),
    (Make("a"), "no memory: new a"),
    (Make("a"), "ok: new a"),
    (Failing("write 0..6 a", ENOMEM), "ok"),
    (Write("a", 0, "sixsix"), "no memory: write 0..6 a"),
    // Behind the first part it is a fault, and so it is once the file that stood there is gone.
    (Failing("write 4..6 a", ENOMEM), "ok"),
    (
        Write("a", 0, "sixsix"),
        "failed: write 0..6 a, write 4..6 a",
    ),
    (Failing("new a", ENOMEM), "ok"),
    (Make("a"), "failed: unlink a, new a"),
];

#[test]
fn want_of_memory_has_changed_nothing(rt: HostRuntime) -> Result<(), Fail> {
    assert_eq!(rt;
        play(&rt, &WANT_OF_MEMORY_HAS_CHANGED_NOTHING)?.as_str(),
        ""
    );
    Ok(())
}

const THE_FOLDER_THAT_THE_ROOT_IS_IN_1: [(Step, &str); 6] = [
    (Make(".wlog"), "ok: new .wlog"),
    // It isn't ours to open.
    (Failing("open ..", EACCES), "ok"),
    (Sync(".wlog"), "ok: fsync ., sync .wlog"),
    (Reopen, "ok"),
    (Failing("open ..", ENOENT), "ok"),
    (
        Sync(".wlog"),
        "failed: new .wlog.new, sync .wlog.new, move .wlog.new, to .wlog",
    ),
];

const THE_FOLDER_THAT_THE_ROOT_IS_IN_2: [(Step, &str); 4] = [
    (RemoveRoot, "ok"),
    (Read("a", ""), "none"),
    (Make(".wlog"), "ok: mkdir ., new .wlog"),
    (
        Sync(".wlog"),
        "ok: fsync .., fsync ., fsync above, sync .wlog",
    ),
];

#[test]
fn the_folder_that_the_root_is_in(rt: HostRuntime) -> Result<(), Fail> {
    assert_eq!(rt; play(&rt, &THE_FOLDER_THAT_THE_ROOT_IS_IN_1)?.as_str(), "");
    assert_eq!(rt; play(&rt, &THE_FOLDER_THAT_THE_ROOT_IS_IN_2)?.as_str(), "");
    Ok(())
}

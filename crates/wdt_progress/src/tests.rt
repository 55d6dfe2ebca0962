//! Worked lines, and what two lanes' sources count together.
use crate::{Come, Deed, Line, Progress, WatchedSource};
use std::alloc::Global;
use std::sync::Arc;
use std::test::Fail;
use wdt_source::{MemSource, Source};
use wdt_tree::Plain;
use wdt_units::Name;

fn come(files: u64, bytes: u64) -> Come {
    Come { files, bytes }
}

#[test]
fn lines_of_transfers(rt: HostRuntime) -> Result<(), Fail> {
    use Deed::{Copied, Received, Sent};
    let table: [(Deed, Come, Option<Come>, Option<u64>, &str); 8] = [
        (
            Copied,
            come(3, 0),
            Some(come(12, 0)),
            None,
            "copied 0.0 of 0.0 MiB, 100%, 3 of 12 files",
        ),
        (
            Sent,
            come(3, 0),
            Some(come(12, 10_485_760)),
            None,
            "sent 0.0 of 10.0 MiB, 0%, 3 of 12 files",
        ),
        (
            Copied,
            come(3, 5_242_880),
            Some(come(12, 10_485_760)),
            Some(1_048_576),
            "copied 5.0 of 10.0 MiB, 50%, 1.0 MiB/s, 0:05 left, 3 of 12 files",
        ),
        (
            Sent,
            come(3, 1_048_576),
            Some(come(12, 1_099_511_627_776)),
            Some(52_428_800),
            "sent 1.0 of 1048576.0 MiB, 0%, 50.0 MiB/s, 5:49:31 left, 3 of 12 files",
        ),
        (
            Sent,
            come(3, 7),
            Some(come(12, 7)),
            Some(0),
            "sent 0.0 of 0.0 MiB, 100%, 0.0 MiB/s, 3 of 12 files",
        ),
        (
            Sent,
            come(13, 3_145_728),
            Some(come(12, 2_097_152)),
            Some(1_048_576),
            "sent 2.0 of 2.0 MiB, 100%, 1.0 MiB/s, 0:00 left, 12 of 12 files",
        ),
        (Received, come(1, 0), None, None, "received 0.0 MiB, 1 file"),
        (
            Received,
            come(12, 5_242_880),
            None,
            Some(1_572_864),
            "received 5.0 MiB, 1.5 MiB/s, 12 files",
        ),
    ];
    for (deed, done, all, rate, text) in table {
        let line = Line {
            deed,
            done,
            all,
            rate,
        };
        let shown = format!(in rt.alloc(); "{line}")?;
        assert_eq!(rt; shown.as_str(), text);
    }
    Ok(())
}

// A source of an empty file and one of a mebibyte.
fn two_files(alloc: Global) -> Result<MemSource, Fail> {
    let mut files = Vec::new(alloc);
    for (path, length) in [("a", 0), ("b", 1_048_576)] {
        files.push(Plain {
            path: Name::read(alloc, path.as_bytes())?,
            stamp: 7,
            bytes: vec![in alloc; 0; length]?,
        })?;
    }
    Ok(MemSource::of(files, Vec::new(alloc)))
}

#[test]
fn lanes_count_together(rt: HostRuntime) -> Result<(), Fail> {
    let alloc = rt.alloc();
    let progress = Arc::new(alloc, Progress::of(rt.clone()?, Deed::Sent, come(0, 0)))?;
    let mut first = WatchedSource::of(two_files(alloc)?, Some(progress.clone()?));
    let mut second = WatchedSource::of(two_files(alloc)?, Some(progress.clone()?));
    let mut half = vec![in alloc; 0; 524_288]?;
    let file = Name::read(alloc, b"b")?;
    first.list(alloc)?;
    first.read_exact_at(&file, 0, &mut half)?;
    second.read_exact_at(&file, 524_288, &mut half)?;
    assert!(rt; second.read_exact_at(&file, 524_289, &mut half).is_err());
    let line = progress.line(2_000);
    let shown = format!(in alloc; "{line}")?;
    assert_eq!(rt;
        shown.as_str(),
        "sent 1.0 of 1.0 MiB, 100%, 0.5 MiB/s, 0:00 left, 2 of 2 files"
    );
    Ok(())
}

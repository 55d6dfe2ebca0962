//! What no clause says: that each call succeeds where there is memory, and a worked landing.
#![tactic(auto)]

use crate::Files;
use std::test::Fail;
use wdt_logfmt::LogView;
use wdt_ranges::Span;
use wdt_units::{Block, Name};

#[test]
fn a_block_lands_in_a_new_file(rt: HostRuntime) -> Result<(), Fail> {
    let alloc = rt.alloc();
    let log = LogView {
        files: Vec::new(alloc),
        end: 0,
    };
    let mut files = Files::of(alloc, &log)?;
    let name = Name::read(alloc, b"a")?;
    let number = files.put(name, 8, 7)?;
    files.land(Block {
        file: 0,
        offset: 2,
        length: 4,
    })?;
    assert_eq!(rt; number, 0);
    assert_eq!(rt; files.number(&Name::read(alloc, b"a")?), Some(0));
    assert_eq!(rt; files.number(&Name::read(alloc, b"b")?), None);
    assert_eq!(rt; files.next_number(), 1);
    assert!(rt; files.is_named(0));
    assert!(rt; !files.is_named(1));
    let whole = Span {
        offset: 0,
        length: 8,
    };
    assert_eq!(rt; files.first_shared(0, whole), Some(2));
    assert_eq!(rt; files.first_shared(1, whole), None);
    assert!(rt; files.is_there(0, 5));
    assert!(rt; !files.is_there(0, 6));
    assert_eq!(rt; (files.known(), files.named(), files.spans()), (1, 1, 1));
    assert_eq!(rt; files.bytes(), 4);
    Ok(())
}

//! What no clause says: a history is made, makes room and claims where there is memory, and one
//! worked life of a block.
use crate::{CheckFail, History, Place};
use std::test::Fail;
use wdt_queue::Queue;
use wdt_units::{Block, Lane};

#[test]
fn a_block_comes_home(rt: HostRuntime) -> Result<(), Fail> {
    let alloc = rt.alloc();
    let block = Block {
        file: 0,
        offset: 0,
        length: 2,
    };
    let mut queue = Queue::of(Vec::new(alloc))?;
    let mut history = History::of(alloc, 2)?;
    assert_eq!(rt; history.place(block), Place::Queued);
    history.prepare(Lane(1))?;
    history.claim(Lane(1), block)?;
    assert_eq!(rt; history.place(block), Place::Held);
    assert_eq!(rt; history.holding(), 1);
    history.sent(Lane(1));
    assert_eq!(rt; history.place(block), Place::Unconfirmed);
    let told = history.global(Lane(1), 2, &mut queue);
    let refused = CheckFail::BadCheckpoint {
        n: 2,
        low: 0,
        high: 1,
    };
    assert_eq!(rt; told, Err(refused));
    history.finish();
    assert_eq!(rt; history.place(block), Place::Confirmed);
    Ok(())
}

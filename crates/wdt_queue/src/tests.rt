//! What no clause says: a queue is made where there is memory, and a few worked turns.
use crate::Queue;
use std::test::Fail;
use wdt_units::Block;

const FIRST: Block = Block {
    file: 0,
    offset: 4,
    length: 4,
};

const SECOND: Block = Block {
    file: 1,
    offset: 0,
    length: 9,
};

const THIRD: Block = Block {
    file: 1,
    offset: 9,
    length: 1,
};

#[test]
fn blocks_come_in_their_order(rt: HostRuntime) -> Result<(), Fail> {
    let mut queue = Queue::of(Vec::from_slice(rt.alloc(), &[FIRST, SECOND, THIRD])?)?;
    assert_eq!(rt; queue.len(), 3);
    let Some(least) = queue.take() else {
        return Ok(());
    };
    assert_eq!(rt; least, FIRST);
    queue.put_back(least);
    for want in [Some(FIRST), Some(SECOND), Some(THIRD), None] {
        assert_eq!(rt; queue.take(), want);
    }
    assert!(rt; queue.is_empty());
    Ok(())
}

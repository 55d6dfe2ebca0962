//! What no clause says: one worked life of an end, whose entries find room.
ghost use Rattle.std.specs.Prelude.{◌≡◌, ◌<◌};

use std::test::Fail;
use wdt_receiver_fsm::{Notes, RecvEvent};
use wdt_units::{Block, Lane, LaneSet, MAX_BLOCKS, NoMemory};

#[derive(Clone, Copy, Debug)]
enum Step {
    Take,
    Begin,
    Land,
    Dropped,
    Idle,
    Tell,
    Close,
    Acked,
}

// Each step is noted of a lane of two. Then stand how many blocks have landed on it, the lanes that are
// untold for it, as bits, whether the finish is ready, and whether all lanes are done with.
const LIFE: [(Step, u8, u32, u16, bool, bool); 12] = [
    (Step::Take, 0, 0, 0, false, false),
    (Step::Take, 1, 0, 0, false, false),
    (Step::Begin, 0, 0, 0, false, false),
    (Step::Land, 0, 1, 0, false, false),
    // Without a block that is begun nothing lands.
    (Step::Land, 0, 1, 0, false, false),
    // A block is lost with its connection.
    (Step::Begin, 1, 0, 0, false, false),
    (Step::Dropped, 1, 0, 0, false, false),
    (Step::Close, 1, 0, 2, false, false),
    (Step::Idle, 0, 1, 2, false, false),
    (Step::Tell, 0, 1, 0, false, false),
    (Step::Idle, 0, 1, 0, true, false),
    (Step::Acked, 0, 1, 0, true, true),
];

const BLOCK: Block = Block {
    file: 0,
    offset: 0,
    length: 2,
};

fn note(notes: &mut Notes, step: Step, lane: Lane) -> Result<(), NoMemory>
    requires { lane.0 < notes.old.lanes }
    ensures { notes.new.lanes ≡ notes.old.lanes }
{
    notes.reserve(1)?;
    match step {
        Step::Take => {
            if !notes.is_used_up(lane) {
                let conn = notes.next_take(lane);
                notes.note(RecvEvent::Take(lane, conn));
            }
        }
        Step::Begin => {
            if notes.landed(lane) < MAX_BLOCKS {
                notes.note(RecvEvent::Begin(lane, BLOCK));
            }
        }
        Step::Land => notes.note(RecvEvent::Land(lane)),
        Step::Dropped => notes.note(RecvEvent::Dropped(lane)),
        Step::Idle => notes.note(RecvEvent::Idle(lane)),
        Step::Tell => {
            let untold = notes.untold(lane);
            notes.note(RecvEvent::Told(lane, untold));
        }
        Step::Close => notes.note(RecvEvent::Close(lane)),
        Step::Acked => notes.note(RecvEvent::Acked(lane)),
    }
    Ok(())
}

#[test]
fn a_closed_lane_is_told_and_the_finish_is_ready(rt: HostRuntime) -> Result<(), Fail> {
    let mut notes = Notes::of(rt.alloc(), 2);
    for (step, number, landed, untold, ready, done) in LIFE {
        let lane = Lane(number % 2);
        note(&mut notes, step, lane)?;
        assert_eq!(rt; notes.landed(lane), landed, "{step:?} {number}");
        assert_eq!(rt; notes.untold(lane), LaneSet(untold), "{step:?} {number}");
        assert_eq!(rt; notes.is_ready(), ready, "{step:?} {number}");
        assert_eq!(rt; notes.all_done(), done, "{step:?} {number}");
    }
    assert_eq!(rt; notes.history().len(), 12);
    Ok(())
}

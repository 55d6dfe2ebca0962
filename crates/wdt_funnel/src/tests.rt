//! What no clause says: one worked finish.
ghost use Rattle.std.specs.Prelude.{◌≡◌, ◌<◌};

use crate::Funnel;
use std::test::Fail;
use wdt_units::{Lane, LaneSet};

#[derive(Clone, Copy, Debug)]
enum Step {
    Took,
    Dropped,
    Idle,
    Close,
    Tell,
}

// Each step is made on a lane of three. Then stand the lanes that are untold for it, as bits, and
// whether the finish is ready.
const LIFE: [(Step, u8, u16, bool); 14] = [
    (Step::Took, 0, 0, false),
    (Step::Took, 1, 0, false),
    (Step::Idle, 0, 0, false),
    // Lane 2 is given up. Lane 1 is idle, too, but nobody has read of lane 2.
    (Step::Close, 2, 4, false),
    (Step::Idle, 1, 4, false),
    // Lane 0 tells of it, and is cut before it is idle again: that counts for nothing.
    (Step::Tell, 0, 0, false),
    (Step::Dropped, 0, 0, false),
    (Step::Took, 0, 4, false),
    (Step::Idle, 0, 4, false),
    // It tells again, and is idle behind it.
    (Step::Tell, 0, 0, false),
    (Step::Idle, 0, 0, true),
    // Lane 1 needn't tell what is confirmed. Once it is cut, it is neither idle nor closed.
    (Step::Dropped, 1, 0, false),
    (Step::Close, 1, 2, false),
    (Step::Tell, 0, 0, false),
];

fn take(funnel: &mut Funnel, step: Step, lane: Lane)
    requires { lane.0 < funnel.old.lanes }
    ensures { funnel.new.lanes ≡ funnel.old.lanes }
{
    match step {
        Step::Took => funnel.took(lane),
        Step::Dropped => funnel.dropped(lane),
        Step::Idle => funnel.idle(lane),
        Step::Close => funnel.close(lane),
        Step::Tell => {
            let _told = funnel.tell(lane);
        }
    }
}

#[test]
fn a_closed_lane_is_told_again_behind_a_cut(rt: HostRuntime) -> Result<(), Fail> {
    let mut funnel = Funnel::of(3);
    for (step, number, untold, ready) in LIFE {
        let lane = Lane(number % 3);
        take(&mut funnel, step, lane);
        assert_eq!(rt; funnel.untold(lane), LaneSet(untold), "{step:?} {number}");
        assert_eq!(rt; funnel.ready(), ready, "{step:?} {number}");
    }
    let none = funnel.tell(Lane(0));
    assert!(rt; none.is_empty());
    funnel.idle(Lane(0));
    assert!(rt; funnel.ready());
    Ok(())
}

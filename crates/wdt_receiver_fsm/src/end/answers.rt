//! How an end's answer follows from its lanes.
ghost use Rattle.std.specs.Prelude.{◌≡◌, ◌<◌, length};
ghost use Rattle.wdt_receiver_fsm.specs.PlainReceiver.{is_ended};
ghost use Rattle.wdt_sender_fsm.specs.Rules.{every};
ghost use Rattle.wdt_receiver_fsm.specs.End.{answer_in, is_out_in};

use crate::{Notes, RecvLane, RecvState};
use wdt_sender_fsm::EndAnswer;

/// The answer behind a step: a failure stays, and else it follows from the lanes.
pub fn settle(answer: &mut EndAnswer, lanes: &[RecvLane], notes: &Notes)
    requires { length lanes.now ≡ notes.now.lanes }
    ensures { answer.new ≡ answer_in answer.old notes.now.history lanes.now }
{
    let is_done = notes.has_finish() && notes.all_done();
    let is_over = are_out(lanes);
    answer.judge(is_done, is_over);
}

// Whether each lane has ended.
fn are_out(lanes: &[RecvLane]) -> bool
    ensures { result ≡ every (length lanes.now) (is_out_in lanes.now) }
{
    for lane in lanes {
        if !is_ended(lane.state) {
            return false;
        }
    }
    true
}

fn is_ended(state: RecvState) -> bool
    ensures { result ≡ is_ended state }
{
    matches!(state, RecvState::Ended)
}

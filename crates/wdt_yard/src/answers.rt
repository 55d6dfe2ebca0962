//! How an end's answer follows from its lanes.
ghost use Rattle.std.specs.Prelude.{◌≡◌, ◌<◌, ◌&&◌, length};
ghost use Rattle.wdt_sender_fsm.specs.PlainSender.{is_ended};
ghost use Rattle.wdt_sender_fsm.specs.Rules.{every, judged};
ghost use Rattle.wdt_sender_fsm.specs.SenderHistory.{end_of};
ghost use Rattle.wdt_yard.specs.End.{is_done_in, is_out_in};

use crate::journal::Journal;
use wdt_sender_fsm::{EndAnswer, SendLane, SendState};
use wdt_units::Lane;

/// The answer behind a step: a failure stays, and else it follows from the lanes.
pub fn settle(answer: &mut EndAnswer, lanes: &[SendLane], journal: &Journal)
    requires { length lanes.now ≡ journal.now.lanes }
    ensures { answer.new ≡ judged answer.old ((end_of journal.now.history).has_finish && every journal.now.lanes (is_done_in journal.now.history)) (every journal.now.lanes (is_out_in journal.now.history lanes.now)) }
{
    let is_done = journal.has_finish() && are_done(journal);
    let is_over = are_out(lanes, journal);
    answer.judge(is_done, is_over);
}

// Whether each lane is acknowledged or closed.
fn are_done(journal: &Journal) -> bool
    ensures { result ≡ every journal.now.lanes (is_done_in journal.now.history) }
{
    for number in 0..journal.lanes() {
        if !is_done(journal, Lane(number)) {
            return false;
        }
    }
    true
}

// Whether a lane is acknowledged or closed.
fn is_done(journal: &Journal, lane: Lane) -> bool
    requires { lane.0 < journal.now.lanes }
    ensures { result ≡ is_done_in journal.now.history lane.0 }
{
    journal.is_acknowledged(lane) || journal.is_closed(lane)
}

// Whether each lane has ended or is closed.
fn are_out(lanes: &[SendLane], journal: &Journal) -> bool
    requires { length lanes.now ≡ journal.now.lanes }
    ensures { result ≡ every journal.now.lanes (is_out_in journal.now.history lanes.now) }
{
    for number in 0..journal.lanes() {
        if !is_out(lanes, journal, Lane(number)) {
            return false;
        }
    }
    true
}

// Whether a lane has ended or is closed.
fn is_out(lanes: &[SendLane], journal: &Journal, lane: Lane) -> bool
    requires same { length lanes.now ≡ journal.now.lanes }
    requires lane { lane.0 < journal.now.lanes }
    ensures { result ≡ is_out_in journal.now.history lanes.now lane.0 }
{
    let lane_state = lanes[lane.0 as usize].state;
    is_ended(lane_state) || journal.is_closed(lane)
}

fn is_ended(state: SendState) -> bool
    ensures { result ≡ is_ended state }
{
    matches!(state, SendState::Ended)
}

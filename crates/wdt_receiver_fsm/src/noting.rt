//! What is noted.
ghost use Rattle.std.specs.Prelude.{◌≡◌, ◌<◌, length, option_map};
ghost use Rattle.wdt_units.specs.declared.limits.TheConstants.{MAX_LANES};
ghost use Rattle.wdt_funnel.specs.Barrier.{barrier_from};
ghost use Rattle.wdt_receiver_fsm.specs.ReceiverHistory.{lane_of};
ghost use Rattle.wdt_receiver_fsm.specs.Happened.{happening_of};
ghost use Rattle.wdt_receiver_fsm.specs.Kept.{counted_in, CanCount, CanPass};
ghost use Rattle.wdt_receiver_fsm.specs.Notable.{IsWithin, MayNote};
ghost use Rattle.wdt_receiver_fsm.specs.View.{with_entry};

use crate::RecvEvent;
use crate::notes::Notes;
use crate::tally::Tally;
use wdt_funnel::Funnel;
use wdt_units::Lane;

impl Notes {
    /// Notes an entry, for which there has to be room. Any entry that the history allows may be noted.
    pub fn note(&mut self, event: RecvEvent)
        requires room { 0 < self.old.room }
        requires allowed { MayNote self.old.lanes self.old.history event }
        ensures { self.new ≡ with_entry self.old event }
    {
        count(&mut self.tallies, event);
        pass(&mut self.funnel, event);
        self.common.note(event);
        self.events.push_reserved(event);
    }
}

// Counts an entry for its lane.
fn count(tallies: &mut [Tally; 16], event: RecvEvent)
    requires { CanCount tallies.old event }
    ensures { tallies.new ≡ counted_in tallies.old event }
{
    if let Some(lane) = lane_of(event) {
        tallies[lane.0 as usize].count(event);
    }
}

// The lane whose step an entry is of: the finish is of none.
fn lane_of(event: RecvEvent) -> Option<Lane>
    ensures { option_map (λ lane. lane.0) result ≡ lane_of event }
{
    match event {
        RecvEvent::Take(lane, _)
        | RecvEvent::NoLink(lane)
        | RecvEvent::Met(lane, _)
        | RecvEvent::Sized(lane, _, _)
        | RecvEvent::Begin(lane, _)
        | RecvEvent::Land(lane)
        | RecvEvent::Dropped(lane)
        | RecvEvent::Idle(lane)
        | RecvEvent::Told(lane, _)
        | RecvEvent::Close(lane)
        | RecvEvent::Acked(lane)
        | RecvEvent::Quit(lane)
        | RecvEvent::Abort(lane, _)
        | RecvEvent::Peer(lane, _) => Some(lane),
        RecvEvent::Finish => None,
    }
}

// Passes on to the funnel what an entry is for the finish.
fn pass(funnel: &mut Funnel, event: RecvEvent)
    requires { CanPass funnel.old event }
    ensures { funnel.new ≡ barrier_from funnel.old (happening_of event) }
{
    match event {
        RecvEvent::Take(lane, _) => funnel.took(lane),
        RecvEvent::Dropped(lane) => funnel.dropped(lane),
        RecvEvent::Idle(lane) => funnel.idle(lane),
        RecvEvent::Told(lane, _) => {
            let _told = funnel.tell(lane);
        }
        RecvEvent::Close(lane) => funnel.close(lane),
        _ => {}
    }
}

//! What the receiver's lanes work with, in one list while they run.
ghost use Rattle.std.specs.Prelude.{◌≡◌, ◌≤◌, [], length, map, vec_len, vec_capacity};
ghost use Rattle.wdt_lanes.specs.LaneLists.{HasFlags};

use wdt_lanes::with_flag;
use wdt_units::{Lane, LaneSet, MAX_LANES};

/// What a lane's thread works with, and what it notes of what it heard.
#[derive(Drop)]
pub(crate) struct Seat<P, A> {
    pub(crate) pass: P,
    pub(crate) acceptor: A,
    /// It handed in that its connection failed, or that none could be taken.
    pub(crate) cut: bool,
    /// It handed in that the other end failed, or said what is no frame.
    pub(crate) alarmed: bool,
}

/// The lanes whose seats have a flag.
pub(crate) struct FlaggedLanes {
    pub(crate) cut: LaneSet,
    pub(crate) alarmed: LaneSet,
}

/// Takes all out of the lists and into the seats, in the order of the lanes. The lists keep their room.
pub(crate) fn seat_all<P, A>(
    passes: &mut Vec<P>,
    acceptors: &mut Vec<A>,
    seats: &mut Vec<Seat<P, A>>,
)
    requires acceptors { vec_len acceptors.old ≡ vec_len passes.old }
    requires empty { seats.old.items ≡ [] }
    requires room { vec_len passes.old ≤ vec_capacity seats.old }
    ensures passes { map (λ s. s.pass) seats.new.items ≡ passes.old.items }
    ensures acceptors { map (λ s. s.acceptor) seats.new.items ≡ acceptors.old.items }
    ensures no_passes { passes.new.items ≡ [] }
    ensures no_acceptors { acceptors.new.items ≡ [] }
    ensures pass_room { vec_capacity passes.new ≡ vec_capacity passes.old }
    ensures acceptor_room { vec_capacity acceptors.new ≡ vec_capacity acceptors.old }
{
    let count = passes.len();
    for lane in 0..count {
        let pass = passes.pop().unwrap();
        let acceptor = acceptors.pop().unwrap();
        seats.push_reserved(Seat {
            pass,
            acceptor,
            cut: false,
            alarmed: false,
        });
    }
    seats.reverse();
}

/// Puts all that the seats have back into the lists, which have the room, in the order of the lanes.
pub(crate) fn unseat_all<P, A>(
    seats: &mut Vec<Seat<P, A>>,
    passes: &mut Vec<P>,
    acceptors: &mut Vec<A>,
)
    requires no_passes { passes.old.items ≡ [] }
    requires no_acceptors { acceptors.old.items ≡ [] }
    requires pass_room { vec_len seats.old ≤ vec_capacity passes.old }
    requires acceptor_room { vec_len seats.old ≤ vec_capacity acceptors.old }
    ensures passes { passes.new.items ≡ map (λ s. s.pass) seats.old.items }
    ensures acceptors { acceptors.new.items ≡ map (λ s. s.acceptor) seats.old.items }
    ensures empty { seats.new.items ≡ [] }
{
    seats.reverse();
    let count = seats.len();
    for lane in 0..count {
        let Seat { pass, acceptor, .. } = seats.pop().unwrap();
        passes.push_reserved(pass);
        acceptors.push_reserved(acceptor);
    }
}

/// The lanes that have a flag, of seats in the order of the lanes.
pub(crate) fn flagged<P, A>(seats: &[Seat<P, A>]) -> FlaggedLanes
    requires { length seats.now ≤ MAX_LANES }
    ensures cut { HasFlags result.cut (map (λ s. s.cut) seats.now) }
    ensures alarmed { HasFlags result.alarmed (map (λ s. s.alarmed) seats.now) }
{
    let mut cut = LaneSet::empty();
    let mut alarmed = LaneSet::empty();
    for number in 0..seats.len() {
        let lane = Lane(number as u8);
        let seat = &seats[number];
        cut = with_flag(cut, lane, seat.cut);
        alarmed = with_flag(alarmed, lane, seat.alarmed);
    }
    FlaggedLanes { cut, alarmed }
}

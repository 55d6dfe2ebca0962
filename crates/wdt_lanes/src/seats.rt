//! What the sender's lanes work with, in one list while they run.
ghost use Rattle.std.specs.Prelude.{◌≡◌, ◌≤◌, [], length, map, vec_len, vec_capacity};
ghost use Rattle.wdt_lanes.specs.LaneLists.{HasFlags};

use crate::lane_sets::with_flag;
use wdt_units::{Lane, LaneSet, MAX_LANES};

/// What a lane's thread works with, and what it notes of its inputs.
#[derive(Drop)]
pub(crate) struct Seat<P, S, C> {
    pub(crate) pass: P,
    pub(crate) source: S,
    pub(crate) dialer: C,
    /// It handed in that its source failed.
    pub(crate) lost: bool,
    /// It handed in that its connection failed, or that none could be made.
    pub(crate) cut: bool,
    /// It handed in that the other end failed, or said what is no frame.
    pub(crate) alarmed: bool,
}

/// The lanes whose seats have a flag.
#[derive(Clone, Copy)]
pub(crate) struct FlaggedLanes {
    pub(crate) lost: LaneSet,
    pub(crate) cut: LaneSet,
    pub(crate) alarmed: LaneSet,
}

/// Takes all out of the lists and into the seats, in the order of the lanes. The lists keep their room.
#[tactic(auto, using(crate::proofs::Seating::seated))]
pub(crate) fn seat_all<P, S, C>(
    passes: &mut Vec<P>,
    sources: &mut Vec<S>,
    dialers: &mut Vec<C>,
    seats: &mut Vec<Seat<P, S, C>>,
)
    requires sources { vec_len sources.old ≡ vec_len passes.old }
    requires dialers { vec_len dialers.old ≡ vec_len passes.old }
    requires empty { seats.old.items ≡ [] }
    requires room { vec_len passes.old ≤ vec_capacity seats.old }
    ensures passes { map (λ s. s.pass) seats.new.items ≡ passes.old.items }
    ensures sources { map (λ s. s.source) seats.new.items ≡ sources.old.items }
    ensures dialers { map (λ s. s.dialer) seats.new.items ≡ dialers.old.items }
    ensures no_passes { passes.new.items ≡ [] }
    ensures no_sources { sources.new.items ≡ [] }
    ensures no_dialers { dialers.new.items ≡ [] }
    ensures pass_room { vec_capacity passes.new ≡ vec_capacity passes.old }
    ensures source_room { vec_capacity sources.new ≡ vec_capacity sources.old }
    ensures dialer_room { vec_capacity dialers.new ≡ vec_capacity dialers.old }
{
    let count = passes.len();
    for lane in 0..count {
        let pass = passes.pop().unwrap();
        let source = sources.pop().unwrap();
        let dialer = dialers.pop().unwrap();
        seats.push_reserved(Seat {
            pass,
            source,
            dialer,
            lost: false,
            cut: false,
            alarmed: false,
        });
    }
    seats.reverse();
}

/// Puts all that the seats have back into the lists, which have the room, in the order of the lanes.
pub(crate) fn unseat_all<P, S, C>(
    seats: &mut Vec<Seat<P, S, C>>,
    passes: &mut Vec<P>,
    sources: &mut Vec<S>,
    dialers: &mut Vec<C>,
)
    requires no_passes { passes.old.items ≡ [] }
    requires no_sources { sources.old.items ≡ [] }
    requires no_dialers { dialers.old.items ≡ [] }
    requires pass_room { vec_len seats.old ≤ vec_capacity passes.old }
    requires source_room { vec_len seats.old ≤ vec_capacity sources.old }
    requires dialer_room { vec_len seats.old ≤ vec_capacity dialers.old }
    ensures passes { passes.new.items ≡ map (λ s. s.pass) seats.old.items }
    ensures sources { sources.new.items ≡ map (λ s. s.source) seats.old.items }
    ensures dialers { dialers.new.items ≡ map (λ s. s.dialer) seats.old.items }
    ensures empty { seats.new.items ≡ [] }
{
    seats.reverse();
    let count = seats.len();
    for lane in 0..count {
        let Seat {
            pass,
            source,
            dialer,
            ..
        } = seats.pop().unwrap();
        passes.push_reserved(pass);
        sources.push_reserved(source);
        dialers.push_reserved(dialer);
    }
}

/// The lanes that have a flag, of seats in the order of the lanes.
pub(crate) fn flagged<P, S, C>(seats: &[Seat<P, S, C>]) -> FlaggedLanes
    requires { length seats.now ≤ MAX_LANES }
    ensures lost { HasFlags result.lost (map (λ s. s.lost) seats.now) }
    ensures cut { HasFlags result.cut (map (λ s. s.cut) seats.now) }
    ensures alarmed { HasFlags result.alarmed (map (λ s. s.alarmed) seats.now) }
{
    let mut lost = LaneSet::empty();
    let mut cut = LaneSet::empty();
    let mut alarmed = LaneSet::empty();
    for number in 0..seats.len() {
        let lane = Lane(number as u8);
        let seat = &seats[number];
        lost = with_flag(lost, lane, seat.lost);
        cut = with_flag(cut, lane, seat.cut);
        alarmed = with_flag(alarmed, lane, seat.alarmed);
    }
    FlaggedLanes { lost, cut, alarmed }
}

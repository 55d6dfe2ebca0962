//! The traits of what gives connections.
ghost use Rattle.std.specs.Prelude.{◌≡◌, ℕ, ◌+◌, ◌<◌, List, Option, IfOk, IfSome, IsErrOf, OnOk, OnErr};
ghost use Rattle.wdt_units.specs.Counts.{added};
ghost use Rattle.wdt_link.specs.Calls.{HasFault};
ghost use Rattle.wdt_link.specs.Talk.{Connection, HangsUp};
ghost use Rattle.wdt_link.specs.Traffic.{IsFresh, IsSame, Tells};

use crate::fails::LinkFail;
use crate::link::Link;
use crate::said::Said;
use wdt_tree::Run;
use wdt_units::Conn;

/// What a sender's lane gets its connections from, one at a time.
pub trait Dial<N: Run> {
    /// The links that it gives.
    type L: Link<Said<N>> + Drop;

    /// How often a call failed, on itself and on the links that it took back. The count stops at 2^64
    /// less 1, as do the next two.
    ghost faults: { Self → ℕ };

    /// How often the other end was heard to fail, on the links that it took back.
    ghost alarms: { Self → ℕ };

    /// How often a call asked for what can't come, on the links that it took back.
    ghost slips: { Self → ℕ };

    /// What its links are known by. No call changes it.
    ghost mark: { Self → ℕ };

    /// How many of its links are out.
    ghost out: { Self → ℕ };

    /// What was received and sent on each connection that was taken back, in order, where told. It may
    /// stop being told, and doesn't begin again.
    ghost talk: { Self → Option (List Connection) };

    /// The connection of that number on its lane. After want of memory it is as it was.
    fn dial(&mut self, conn: Conn) -> Result<Self::L, LinkFail>
        requires { out self.old ≡ 0 }
        ensures fresh { IfOk result (λ link. (Self.L.slips link ≡ 0) × ((Self.L.owing link).owed ≡ 0)) }
        ensures marked { IfOk result (λ link. Self.L.mark link ≡ mark self.old) }
        ensures unused { IfOk result (λ link. IfSome (Self.L.told link) IsFresh) }
        ensures given { OnOk result (out self.new ≡ 1) }
        ensures none { OnErr result (out self.new ≡ 0) }
        ensures cause { HasFault LinkFail.Failed result (faults self.old) (faults self.new) }
        ensures alarms { alarms self.new ≡ alarms self.old }
        ensures slips { slips self.new ≡ slips self.old }
        ensures mark { mark self.new ≡ mark self.old }
        ensures talk { Tells IsSame (talk self.old) (talk self.new) }
        ensures starved { IsErrOf result LinkFail.NoMemory → talk self.new ≡ talk self.old };

    /// Takes a link of its own back, with its counts, and ends the connection. It takes no memory.
    fn hang_up(&mut self, link: Self::L)
        requires mark { Self.L.mark link ≡ mark self.old }
        requires out { 0 < out self.old }
        ensures out { out self.new + 1 ≡ out self.old }
        ensures faults { faults self.new ≡ added (faults self.old) (Self.L.faults link) }
        ensures alarms { alarms self.new ≡ added (alarms self.old) (Self.L.alarms link) }
        ensures slips { slips self.new ≡ added (slips self.old) (Self.L.slips link) }
        ensures mark { mark self.new ≡ mark self.old }
        ensures talk { HangsUp (talk self.old) (Self.L.told link) (talk self.new) };

    /// The lane makes no further call.
    fn retire(&mut self)
        ensures out { out self.new ≡ out self.old }
        ensures faults { faults self.new ≡ faults self.old }
        ensures alarms { alarms self.new ≡ alarms self.old }
        ensures slips { slips self.new ≡ slips self.old }
        ensures mark { mark self.new ≡ mark self.old }
        ensures talk { Tells IsSame (talk self.old) (talk self.new) };
}

/// What a receiver's lane gets its connections from, one at a time.
pub trait Accept<N: Run> {
    /// The links that it gives.
    type L: Link<Said<N>> + Drop;

    /// How often a call failed, on itself and on the links that it took back. The count stops at 2^64
    /// less 1, as do the next two.
    ghost faults: { Self → ℕ };

    /// How often the other end was heard to fail, on the links that it took back.
    ghost alarms: { Self → ℕ };

    /// How often a call asked for what can't come, on the links that it took back.
    ghost slips: { Self → ℕ };

    /// What its links are known by. No call changes it.
    ghost mark: { Self → ℕ };

    /// How many of its links are out.
    ghost out: { Self → ℕ };

    /// What was received and sent on each connection that was taken back, in order, where told. It may
    /// stop being told, and doesn't begin again.
    ghost talk: { Self → Option (List Connection) };

    /// The next connection that the other end makes. After want of memory it is as it was.
    fn accept(&mut self) -> Result<Self::L, LinkFail>
        requires { out self.old ≡ 0 }
        ensures fresh { IfOk result (λ link. (Self.L.slips link ≡ 0) × ((Self.L.owing link).owed ≡ 0)) }
        ensures marked { IfOk result (λ link. Self.L.mark link ≡ mark self.old) }
        ensures unused { IfOk result (λ link. IfSome (Self.L.told link) IsFresh) }
        ensures given { OnOk result (out self.new ≡ 1) }
        ensures none { OnErr result (out self.new ≡ 0) }
        ensures cause { HasFault LinkFail.Failed result (faults self.old) (faults self.new) }
        ensures alarms { alarms self.new ≡ alarms self.old }
        ensures slips { slips self.new ≡ slips self.old }
        ensures mark { mark self.new ≡ mark self.old }
        ensures talk { Tells IsSame (talk self.old) (talk self.new) }
        ensures starved { IsErrOf result LinkFail.NoMemory → talk self.new ≡ talk self.old };

    /// Takes a link of its own back, with its counts, and ends the connection. It takes no memory.
    fn hang_up(&mut self, link: Self::L)
        requires mark { Self.L.mark link ≡ mark self.old }
        requires out { 0 < out self.old }
        ensures out { out self.new + 1 ≡ out self.old }
        ensures faults { faults self.new ≡ added (faults self.old) (Self.L.faults link) }
        ensures alarms { alarms self.new ≡ added (alarms self.old) (Self.L.alarms link) }
        ensures slips { slips self.new ≡ added (slips self.old) (Self.L.slips link) }
        ensures mark { mark self.new ≡ mark self.old }
        ensures talk { HangsUp (talk self.old) (Self.L.told link) (talk self.new) };

    /// The lane makes no further call.
    fn retire(&mut self)
        ensures out { out self.new ≡ out self.old }
        ensures faults { faults self.new ≡ faults self.old }
        ensures alarms { alarms self.new ≡ alarms self.old }
        ensures slips { slips self.new ≡ slips self.old }
        ensures mark { mark self.new ≡ mark self.old }
        ensures talk { Tells IsSame (talk self.old) (talk self.new) };
}

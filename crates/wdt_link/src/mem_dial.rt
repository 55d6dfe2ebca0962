//! A dialer and an acceptor over wires in memory.
ghost use Rattle.std.specs.Prelude.{◌≡◌, ◌<◌, ◌+◌, None, IfOk, IfSome, OnErr, OnOk, map};
ghost use Rattle.wdt_units.specs.Counts.{added};
ghost use Rattle.wdt_link.specs.Calls.{HasFault};
ghost use Rattle.wdt_link.specs.Links.{faults_of};
ghost use Rattle.wdt_link.specs.Memory.{GivesNext, cable_of, new_lines};
ghost use Rattle.wdt_link.specs.Talk.{hung_up};
ghost use Rattle.wdt_link.specs.Traffic.{IsFresh};
ghost use Rattle.wdt_link.specs.Wires.{AreUnused};

use crate::byte_link::ByteLink;
use crate::dialing::{Accept, Dial};
use crate::fails::LinkFail;
use crate::mem_lines::MemLines;
use crate::mem_wire::MemWire;
use std::alloc::Global;
use std::marker::Model;
use wdt_tree::{Run, Untold};
use wdt_units::Conn;

/// A dialer over wires in memory: each call gives a link over the next wire.
/// Where no wire is left the call fails. It tells its talk where each link that it took back tells its
/// bytes, which links over wires in memory do.
#[derive(Drop)]
pub struct MemDial<N: Run = Untold> {
    lines: MemLines<N>,
}

impl<N: Run> Model for MemDial<N> {
    ghost use Rattle.wdt_link.specs.Memory.{MemLinesView};

    ghost Value = { MemLinesView };

    ghost view = { λ s. s.lines };
}

impl<N: Run> MemDial<N> {
    /// A dialer of wires that have carried nothing, given in this order.
    pub fn of(alloc: Global, wires: Vec<MemWire>) -> MemDial<N>
        requires silent { N.told ≡ None }
        requires unused { AreUnused (map cable_of wires.items) }
        ensures { result ≡ new_lines (map cable_of wires.items) }
    {
        MemDial {
            lines: MemLines::of(alloc, wires),
        }
    }
}

impl<N: Run> Dial<N> for MemDial<N> {
    type L = ByteLink<MemWire, N>;

    ghost faults = { λ s. s.faults };

    ghost alarms = { λ s. s.alarms };

    ghost slips = { λ s. s.slips };

    ghost mark = { λ _. 0 };

    ghost out = { λ s. s.out };

    ghost talk = { λ s. s.talk };

    fn dial(&mut self, _conn: Conn) -> Result<ByteLink<MemWire, N>, LinkFail>
        requires { self.old.out ≡ 0 }
        ensures next { GivesNext result self.old.left self.new.left }
        ensures fresh { IfOk result (λ link. (link.slips ≡ 0) × (link.owing.owed ≡ 0)) }
        ensures unused { IfOk result (λ link. IfSome link.told IsFresh) }
        ensures given { OnOk result (self.new.out ≡ 1) }
        ensures none { OnErr result (self.new.out ≡ 0) }
        ensures cause { HasFault LinkFail.Failed result self.old.faults self.new.faults }
        ensures alarms { self.new.alarms ≡ self.old.alarms }
        ensures slips { self.new.slips ≡ self.old.slips }
        ensures talk { self.new.talk ≡ self.old.talk }
    {
        self.lines.give()
    }

    fn hang_up(&mut self, link: ByteLink<MemWire, N>)
        requires { 0 < self.old.out }
        ensures left { self.new.left ≡ self.old.left }
        ensures out { self.new.out + 1 ≡ self.old.out }
        ensures faults { self.new.faults ≡ added self.old.faults (faults_of link) }
        ensures alarms { self.new.alarms ≡ added self.old.alarms link.alarms }
        ensures slips { self.new.slips ≡ added self.old.slips link.slips }
        ensures talk { self.new.talk ≡ hung_up self.old.talk link.told }
    {
        self.lines.take_back(link);
    }

    fn retire(&mut self)
        ensures { self.new ≡ self.old }
    {}
}

/// An acceptor over wires in memory: each call gives a link over the next wire.
/// Where no wire is left the call fails. It tells its talk where each link that it took back tells its
/// bytes, which links over wires in memory do.
#[derive(Drop)]
pub struct MemAccept<N: Run = Untold> {
    lines: MemLines<N>,
}

impl<N: Run> Model for MemAccept<N> {
    ghost use Rattle.wdt_link.specs.Memory.{MemLinesView};

    ghost Value = { MemLinesView };

    ghost view = { λ s. s.lines };
}

impl<N: Run> MemAccept<N> {
    /// An acceptor of wires that have carried nothing, given in this order.
    pub fn of(alloc: Global, wires: Vec<MemWire>) -> MemAccept<N>
        requires silent { N.told ≡ None }
        requires unused { AreUnused (map cable_of wires.items) }
        ensures { result ≡ new_lines (map cable_of wires.items) }
    {
        MemAccept {
            lines: MemLines::of(alloc, wires),
        }
    }
}

impl<N: Run> Accept<N> for MemAccept<N> {
    type L = ByteLink<MemWire, N>;

    ghost faults = { λ s. s.faults };

    ghost alarms = { λ s. s.alarms };

    ghost slips = { λ s. s.slips };

    ghost mark = { λ _. 0 };

    ghost out = { λ s. s.out };

    ghost talk = { λ s. s.talk };

    fn accept(&mut self) -> Result<ByteLink<MemWire, N>, LinkFail>
        requires { self.old.out ≡ 0 }
        ensures next { GivesNext result self.old.left self.new.left }
        ensures fresh { IfOk result (λ link. (link.slips ≡ 0) × (link.owing.owed ≡ 0)) }
        ensures unused { IfOk result (λ link. IfSome link.told IsFresh) }
        ensures given { OnOk result (self.new.out ≡ 1) }
        ensures none { OnErr result (self.new.out ≡ 0) }
        ensures cause { HasFault LinkFail.Failed result self.old.faults self.new.faults }
        ensures alarms { self.new.alarms ≡ self.old.alarms }
        ensures slips { self.new.slips ≡ self.old.slips }
        ensures talk { self.new.talk ≡ self.old.talk }
    {
        self.lines.give()
    }

    fn hang_up(&mut self, link: ByteLink<MemWire, N>)
        requires { 0 < self.old.out }
        ensures left { self.new.left ≡ self.old.left }
        ensures out { self.new.out + 1 ≡ self.old.out }
        ensures faults { self.new.faults ≡ added self.old.faults (faults_of link) }
        ensures alarms { self.new.alarms ≡ added self.old.alarms link.alarms }
        ensures slips { self.new.slips ≡ added self.old.slips link.slips }
        ensures talk { self.new.talk ≡ hung_up self.old.talk link.told }
    {
        self.lines.take_back(link);
    }

    fn retire(&mut self)
        ensures { self.new ≡ self.old }
    {}
}

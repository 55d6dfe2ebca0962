//! Links over a list of wires in memory.
ghost use Rattle.std.specs.Prelude.{◌≡◌, ◌<◌, ◌+◌, [], None, IfOk, OnErr, OnOk, map};
ghost use Rattle.wdt_units.specs.Counts.{added};
ghost use Rattle.wdt_link.specs.Calls.{HasFault};
ghost use Rattle.wdt_link.specs.Links.{faults_of};
ghost use Rattle.wdt_link.specs.Memory.{GivesNext, cable_of, new_lines};
ghost use Rattle.wdt_link.specs.Talk.{hung_up};
ghost use Rattle.wdt_link.specs.Wires.{AreUnused};

use crate::byte_link::ByteLink;
use crate::fails::LinkFail;
use crate::mem_wire::MemWire;
use std::alloc::Global;
use std::collections::VecDeque;
use std::marker::Model;
use wdt_tree::Run;

/// Gives a link over each wire of a list, one after the other, and keeps those that it takes back.
#[derive(Drop)]
pub(crate) struct MemLines<N: Run> {
    alloc: Global,
    wires: VecDeque<MemWire>,
    // Those that were taken back. Each has its room from when it was given.
    ended: Vec<ByteLink<MemWire, N>>,
    out: u64,
    faults: u64,
    alarms: u64,
    slips: u64,
}

impl<N: Run> Model for MemLines<N> {
    ghost use Rattle.std.specs.Prelude.{◌≡◌, ◌≤◌, ◌+◌, None, map, vec_len, vec_capacity};
    ghost use Rattle.wdt_link.specs.Memory.{MemLinesView, cable_of, talk_of};
    ghost use Rattle.wdt_link.specs.Wires.{AreUnused};

    ghost Value = { MemLinesView };

    ghost view = { λ s. record {
      left = map cable_of s.wires.items;
      out = s.out;
      faults = s.faults;
      alarms = s.alarms;
      slips = s.slips;
      talk = talk_of s.ended.items;
    } };

    ghost invariant = { λ s. (vec_len s.ended + s.out ≤ vec_capacity s.ended)
        × AreUnused (map cable_of s.wires.items)
        × (N.told ≡ None) };
}

impl<N: Run> MemLines<N> {
    /// Of wires that have carried nothing.
    pub(crate) fn of(alloc: Global, wires: Vec<MemWire>) -> MemLines<N>
        requires silent { N.told ≡ None }
        requires unused { AreUnused (map cable_of wires.items) }
        ensures { result ≡ new_lines (map cable_of wires.items) }
    {
        MemLines {
            alloc,
            wires: VecDeque::from(wires),
            ended: Vec::new(alloc),
            out: 0,
            faults: 0,
            alarms: 0,
            slips: 0,
        }
    }

    /// A link over the next wire. It makes the room for that link's return.
    pub(crate) fn give(&mut self) -> Result<ByteLink<MemWire, N>, LinkFail>
        requires { self.old.out ≡ 0 }
        ensures next { GivesNext result self.old.left self.new.left }
        ensures fresh { IfOk result (λ link. (link.slips ≡ 0) × (link.owing.owed ≡ 0)) }
        ensures given { OnOk result (self.new.out ≡ 1) }
        ensures none { OnErr result (self.new.out ≡ 0) }
        ensures cause { HasFault LinkFail.Failed result self.old.faults self.new.faults }
        ensures alarms { self.new.alarms ≡ self.old.alarms }
        ensures slips { self.new.slips ≡ self.old.slips }
        ensures talk { self.new.talk ≡ self.old.talk }
    {
        if self.ended.reserve(1).is_err() {
            return Err(LinkFail::NoMemory);
        }
        match self.wires.pop_front() {
            Some(wire) => {
                self.out = 1;
                Ok(ByteLink::over(self.alloc, wire))
            }
            None => {
                self.faults = self.faults.saturating_add(1);
                Err(LinkFail::Failed)
            }
        }
    }

    /// Takes a link back, with its counts.
    pub(crate) fn take_back(&mut self, link: ByteLink<MemWire, N>)
        requires { 0 < self.old.out }
        ensures left { self.new.left ≡ self.old.left }
        ensures out { self.new.out + 1 ≡ self.old.out }
        ensures faults { self.new.faults ≡ added self.old.faults (faults_of link) }
        ensures alarms { self.new.alarms ≡ added self.old.alarms link.alarms }
        ensures slips { self.new.slips ≡ added self.old.slips link.slips }
        ensures talk { self.new.talk ≡ hung_up self.old.talk link.told }
    {
        self.out -= 1;
        self.faults = self.faults.saturating_add(link.faults());
        self.alarms = self.alarms.saturating_add(link.alarms());
        self.slips = self.slips.saturating_add(link.slips());
        self.ended.push_reserved(link);
    }
}

//! The connections of a lane.
ghost use Rattle.std.specs.Prelude.{suc, ◌≡◌, ◌+◌, map, nat_lt, option_map, IfOk, OnErr, OnOk};
ghost use Rattle.wdt_pact.specs.Pairs.{Pair, cuts_by, top};
ghost use Rattle.wdt_world.specs.Lines.{accepted, accepts, all_left_up, can_dial, dialed, has_waiting, left_down, left_up, made, no_lines, on_top, taken_next};
ghost use Rattle.wdt_world.specs.Pairing.{ShowsLines};
ghost use Rattle.wdt_wire.specs.Wires.{cut_wire, left_by};

mod using;

use std::alloc::Global;
use std::marker::Model;
use wdt_receiver_fsm::RecvIn;
use wdt_units::NoMemory;
use wdt_wire::{Side, Wire};

/// The connections of a lane: the one that the receiver's lane took last, and those that were made since
/// and wait for it. The newest is the sender's.
#[derive(Drop)]
pub(crate) struct Lines {
    taken: Option<Wire>,
    between: Vec<Wire>,
    newest: Option<Wire>,
    denies: u64,
    refusals: u64,
}

impl Model for Lines {
    ghost use Rattle.wdt_world.specs.Lines.{LinesView};

    ghost Value = { LinesView };

    ghost view = { λ l. record { taken = l.taken; between = l.between.items; newest = l.newest; denies = l.denies; refusals = l.refusals } };
}

impl Lines {
    /// A lane that has no connection yet.
    pub(crate) fn new(alloc: Global) -> Lines
        ensures { result ≡ no_lines }
    {
        Lines {
            taken: None,
            between: Vec::new(alloc),
            newest: None,
            denies: 0,
            refusals: 0,
        }
    }

    /// Makes a connection, which is the sender's, unless a try is to fail, which is used up, or the
    /// receiver's lane has stopped. Answers whether it was made.
    pub(crate) fn dial(&mut self, alloc: Global, has_stopped: bool) -> Result<bool, NoMemory>
        ensures answer { IfOk result (λ works. works ≡ can_dial self.old.denies has_stopped) }
        ensures dialed { OnOk result (self.new ≡ dialed has_stopped self.old) }
        ensures unchanged { OnErr result (self.new ≡ self.old) }
    {
        if 0 < self.denies {
            self.denies -= 1;
            return Ok(false);
        }
        if has_stopped {
            return Ok(false);
        }
        self.make(alloc)?;
        Ok(true)
    }

    // Makes a connection.
    fn make(&mut self, alloc: Global) -> Result<(), NoMemory>
        ensures made { OnOk result (self.new ≡ made self.old) }
        ensures unchanged { OnErr result (self.new ≡ self.old) }
    {
        if self.between.reserve(1).is_err() {
            return Err(NoMemory);
        }
        match self.newest.take() {
            Some(mut wire) => {
                wire.leave(Side::Down);
                self.between.push_reserved(wire);
            }
            None => leave(&mut self.taken, Side::Down),
        }
        self.newest = Some(Wire::new(alloc));
        Ok(())
    }

    /// The sender leaves its connection.
    pub(crate) fn leave_down(&mut self)
        ensures { self.new ≡ on_top left_down self.old }
    {
        if self.newest.is_some() {
            leave(&mut self.newest, Side::Down);
        } else {
            leave(&mut self.taken, Side::Down);
        }
    }

    /// The receiver leaves all connections.
    pub(crate) fn leave_up(&mut self)
        ensures { self.new ≡ all_left_up self.old }
    {
        leave(&mut self.taken, Side::Up);
        leave(&mut self.newest, Side::Up);
        leave_all(self.between.as_mut_slice());
    }

    /// Takes the connection that has waited longest, unless a try is to fail, which is used up. Answers
    /// what came of it: nothing where none waits and the sender's lane hasn't stopped.
    pub(crate) fn accept(&mut self, has_stopped: bool) -> Option<RecvIn>
        ensures answer { result ≡ accepts (nat_lt 0 self.old.refusals) (has_waiting self.old.between self.old.newest) has_stopped }
        ensures accepted { self.new ≡ accepted self.old }
    {
        if 0 < self.refusals {
            self.refusals -= 1;
            return Some(RecvIn::NoLink);
        }
        if self.take_next() {
            return Some(RecvIn::Linked);
        }
        has_stopped.then_some(RecvIn::NoLink)
    }

    // Takes the connection that has waited longest. Answers whether there was one.
    fn take_next(&mut self) -> bool
        ensures answer { result ≡ has_waiting self.old.between self.old.newest }
        ensures taken { self.new ≡ taken_next self.old }
    {
        if !self.between.is_empty() {
            self.taken = Some(self.between.remove(0));
            return true;
        }
        match self.newest.take() {
            Some(wire) => {
                self.taken = Some(wire);
                true
            }
            None => false,
        }
    }

    /// Cuts the sender's connection: so many bytes can still be taken down and up.
    pub(crate) fn cut(&mut self, down: u64, up: u64)
        ensures { (p : Pair) → ShowsLines self.old p → ShowsLines self.new (cuts_by p down up (top p)) }
    {
        self.cut_top(down, up);
    }

    // The same in bytes.
    fn cut_top(&mut self, down: u64, up: u64)
        ensures { self.new ≡ on_top (cut_wire down up) self.old }
    {
        if let Some(wire) = &mut self.newest {
            wire.cut(down, up);
        } else if let Some(wire) = &mut self.taken {
            wire.cut(down, up);
        }
    }

    /// A further try to make a connection is to fail. NoMemory where they can't be counted.
    pub(crate) fn deny(&mut self) -> Result<(), NoMemory>
        ensures counted { OnOk result (self.new ≡ record self.old { denies = self.old.denies + 1 }) }
        ensures shows { (p : Pair) → ShowsLines self.old p → OnOk result (ShowsLines self.new record p { denies = suc p.denies }) }
        ensures unchanged { OnErr result (self.new ≡ self.old) }
    {
        match self.denies.checked_add(1) {
            Some(count) => self.denies = count,
            None => return Err(NoMemory),
        }
        Ok(())
    }

    /// A further try to take a connection is to fail. NoMemory where they can't be counted.
    pub(crate) fn refuse(&mut self) -> Result<(), NoMemory>
        ensures counted { OnOk result (self.new ≡ record self.old { refusals = self.old.refusals + 1 }) }
        ensures shows { (p : Pair) → ShowsLines self.old p → OnOk result (ShowsLines self.new record p { refusals = suc p.refusals }) }
        ensures unchanged { OnErr result (self.new ≡ self.old) }
    {
        match self.refusals.checked_add(1) {
            Some(count) => self.refusals = count,
            None => return Err(NoMemory),
        }
        Ok(())
    }
}

// An end leaves a connection that may be there.
fn leave(wire: &mut Option<Wire>, side: Side)
    ensures { wire.new ≡ option_map (λ w. left_by w side) wire.old }
{
    if let Some(wire) = wire {
        wire.leave(side);
    }
}

// The receiver leaves some connections.
fn leave_all(wires: &mut [Wire])
    ensures { wires.new ≡ map left_up wires.old }
{
    for wire in wires.iter_mut() {
        wire.leave(Side::Up);
    }
}

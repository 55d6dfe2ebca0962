//! Writing and reading on the connections of a lane.
ghost use Rattle.std.specs.Prelude.{◌≡◌, ◌≤◌, IfOk, IfSome, OnErr, OnOk};
ghost use Rattle.wdt_units.specs.declared.limits.TheConstants.{PIECE};
ghost use Rattle.wdt_wire.specs.declared.side.Side.TheVariants.{Down, Up};
ghost use Rattle.wdt_wire.specs.Wires.{FindsFrame, FindsPiece, written};
ghost use Rattle.wdt_world.specs.Lines.{FindsOn, can_write_on, on_top, taken_on, top_wire, with_taken, with_top_wire};

use crate::lines::Lines;
use wdt_units::NoMemory;
use wdt_wire::{Side, Taken};

impl Lines {
    /// The sender writes bytes on its connection. False is a failure, as `Wire::write` says. NoMemory
    /// writes nothing.
    pub(crate) fn write_down(&mut self, bytes: &[u8]) -> Result<bool, NoMemory>
        ensures works { IfOk result (λ works. works ≡ can_write_on (top_wire self.old) Down) }
        ensures written { OnOk result (self.new ≡ on_top (λ wire. written wire Down bytes.now) self.old) }
        ensures unchanged { OnErr result (self.new ≡ self.old) }
    {
        if let Some(wire) = &mut self.newest {
            return wire.write(Side::Down, bytes);
        }
        match &mut self.taken {
            Some(wire) => wire.write(Side::Down, bytes),
            None => Ok(false),
        }
    }

    /// The receiver writes bytes on the connection that it took. False is a failure. NoMemory writes
    /// nothing.
    pub(crate) fn write_up(&mut self, bytes: &[u8]) -> Result<bool, NoMemory>
        ensures works { IfOk result (λ works. works ≡ can_write_on self.old.taken Up) }
        ensures written { OnOk result (self.new ≡ taken_on (λ wire. written wire Up bytes.now) self.old) }
        ensures unchanged { OnErr result (self.new ≡ self.old) }
    {
        match &mut self.taken {
            Some(wire) => wire.write(Side::Up, bytes),
            None => Ok(false),
        }
    }

    /// The sender takes the next frame from its connection. NoMemory takes nothing.
    pub(crate) fn read_up(&mut self) -> Result<Taken, NoMemory>
        requires { IfSome (top_wire self.old) (λ wire. wire.up.owed ≡ 0) }
        ensures found { IfOk result (λ taken. FindsOn (FindsFrame Up) taken (top_wire self.old) (top_wire self.new)) }
        ensures only { self.new ≡ with_top_wire (top_wire self.new) self.old }
        ensures unchanged { OnErr result (self.new ≡ self.old) }
    {
        if let Some(wire) = &mut self.newest {
            return wire.frame(Side::Up);
        }
        match &mut self.taken {
            Some(wire) => wire.frame(Side::Up),
            None => Ok(Taken::Nothing),
        }
    }

    /// The receiver takes the next frame from the connection that it took. NoMemory takes nothing.
    pub(crate) fn read_down(&mut self) -> Result<Taken, NoMemory>
        requires { IfSome self.old.taken (λ wire. wire.down.owed ≡ 0) }
        ensures found { IfOk result (λ taken. FindsOn (FindsFrame Down) taken self.old.taken self.new.taken) }
        ensures only { self.new ≡ with_taken self.new.taken self.old }
        ensures unchanged { OnErr result (self.new ≡ self.old) }
    {
        match &mut self.taken {
            Some(wire) => wire.frame(Side::Down),
            None => Ok(Taken::Nothing),
        }
    }

    /// The receiver takes the next bytes of a block from the connection that it took: 1 to the smaller of
    /// what is owed there and 65,536. NoMemory takes nothing.
    pub(crate) fn take_piece(&mut self, length: u32) -> Result<Taken, NoMemory>
        requires some { 1 ≤ length }
        requires most { length ≤ PIECE }
        requires owed { IfSome self.old.taken (λ wire. length ≤ wire.down.owed) }
        ensures found { IfOk result (λ taken. FindsOn (FindsPiece Down length) taken self.old.taken self.new.taken) }
        ensures only { self.new ≡ with_taken self.new.taken self.old }
        ensures unchanged { OnErr result (self.new ≡ self.old) }
    {
        match &mut self.taken {
            Some(wire) => wire.piece(Side::Down, length),
            None => Ok(Taken::Nothing),
        }
    }
}

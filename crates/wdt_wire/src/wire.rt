//! A connection in memory.
ghost use Rattle.std.specs.Prelude.{◌≡◌, ◌≤◌, IfOk, OnErr, OnOk, if◌then◌else◌};
ghost use Rattle.wdt_wire.specs.declared.taken.Taken.TheVariants.{Lost, Nothing};
ghost use Rattle.wdt_units.specs.declared.limits.TheConstants.{PIECE};
ghost use Rattle.wdt_wire.specs.Wires.{can_write, cut_wire, is_cut, is_lost, left_by, new_wire, reader_left, way_of, written, FindsFrame, FindsPiece};

use crate::side::Side;
use crate::taken::Taken;
use crate::way::Way;
use std::alloc::Global;
use std::marker::Model;
use wdt_units::NoMemory;

/// A connection between a sender and a receiver. It is seen as the bytes on their way in each direction
/// and which ends have left.
#[derive(Drop)]
pub struct Wire {
    down: Way,
    up: Way,
    sender_left: bool,
    receiver_left: bool,
}

impl Model for Wire {
    ghost use Rattle.wdt_wire.specs.Wires.{PlainWire};

    ghost Value = { PlainWire };

    ghost view = { λ w. record { down = w.down; up = w.up; sender_left = w.sender_left; receiver_left = w.receiver_left } };

    ghost invariant = { λ _. Unit {0} };
}

impl Wire {
    /// A connection on which nothing was written.
    pub fn new(alloc: Global) -> Wire
        ensures { result ≡ new_wire }
    {
        Wire {
            down: Way::new(alloc),
            up: Way::new(alloc),
            sender_left: false,
            receiver_left: false,
        }
    }

    /// Writes bytes in a direction. False is a failure: the connection is cut, and only so many of the
    /// bytes arrive as the cut lets, or the other end has left, and none do. NoMemory writes nothing.
    pub fn write(&mut self, side: Side, bytes: &[u8]) -> Result<bool, NoMemory>
        ensures works { IfOk result (λ works. works ≡ can_write self.old side) }
        ensures written { OnOk result (self.new ≡ written self.old side bytes.now) }
        ensures unchanged { OnErr result (self.new ≡ self.old) }
    {
        if self.reader_left(side) {
            return Ok(false);
        }
        match side {
            Side::Down => self.down.write(bytes)?,
            Side::Up => self.up.write(bytes)?,
        }
        Ok(!self.is_cut(side))
    }

    /// Takes the next frame in a direction, where no bytes of a block are owed. NoMemory takes nothing.
    pub fn frame(&mut self, side: Side) -> Result<Taken, NoMemory>
        requires { (way_of self.old side).owed ≡ 0 }
        ensures found { IfOk result (λ taken. FindsFrame side taken self.old self.new) }
        ensures unchanged { OnErr result (self.new ≡ self.old) }
    {
        let found = match side {
            Side::Down => self.down.frame()?,
            Side::Up => self.up.frame()?,
        };
        match found {
            Some(frame) => Ok(Taken::Frame(frame)),
            None => Ok(self.nothing(side)),
        }
    }

    /// Takes the next bytes of a block in a direction: 1 to the smaller of what is owed and 65,536.
    /// NoMemory takes nothing.
    pub fn piece(&mut self, side: Side, length: u32) -> Result<Taken, NoMemory>
        requires some { 1 ≤ length }
        requires owed { length ≤ (way_of self.old side).owed }
        requires most { length ≤ PIECE }
        ensures found { IfOk result (λ taken. FindsPiece side length taken self.old self.new) }
        ensures unchanged { OnErr result (self.new ≡ self.old) }
    {
        let found = match side {
            Side::Down => self.down.piece(length)?,
            Side::Up => self.up.piece(length)?,
        };
        match found {
            Some(piece) => Ok(Taken::Piece(piece)),
            None => Ok(self.nothing(side)),
        }
    }

    /// Cuts the connection. Of the bytes that weren't taken, and of those still to be written, so many
    /// arrive down and up, and no more than an earlier cut let.
    pub fn cut(&mut self, down: u64, up: u64)
        ensures { self.new ≡ cut_wire down up self.old }
    {
        self.down.cut(down);
        self.up.cut(up);
    }

    /// The end that writes in this direction leaves the connection.
    pub fn leave(&mut self, side: Side)
        ensures { self.new ≡ left_by self.old side }
    {
        match side {
            Side::Down => self.sender_left = true,
            Side::Up => self.receiver_left = true,
        }
    }

    // What an end finds where nothing whole is there.
    fn nothing(&self, side: Side) -> Taken
        ensures { result ≡ (if is_lost self.now side then Lost else Nothing) }
    {
        if self.is_lost(side) {
            Taken::Lost
        } else {
            Taken::Nothing
        }
    }

    // Whether nothing more comes in a direction than what is there.
    fn is_lost(&self, side: Side) -> bool
        ensures { result ≡ is_lost self.now side }
    {
        match side {
            Side::Down => self.down.is_cut() || self.sender_left,
            Side::Up => self.up.is_cut() || self.receiver_left,
        }
    }

    fn is_cut(&self, side: Side) -> bool
        ensures { result ≡ is_cut self.now side }
    {
        match side {
            Side::Down => self.down.is_cut(),
            Side::Up => self.up.is_cut(),
        }
    }

    // Whether the end that reads in a direction has left.
    fn reader_left(&self, side: Side) -> bool
        ensures { result ≡ reader_left self.now side }
    {
        match side {
            Side::Down => self.receiver_left,
            Side::Up => self.sender_left,
        }
    }
}

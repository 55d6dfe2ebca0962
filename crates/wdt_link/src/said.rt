//! What is said of a run's tree.
ghost use Rattle.std.specs.Prelude.{◌≡◌, ℕ, Option, Some, None, IfSome, option_map, true};
ghost use Rattle.wdt_link.specs.Saying.{PlainSaid, Whole, Part, IsPartAt, IsFrameSaid, IsPieceSaid, IsSaid, frame_in, piece_in, place_in, is_whole};

use std::marker::{Model, PhantomData};
use wdt_codec::Frame;
use wdt_tree::Run;
use wdt_units::Name;

// What is carried.
#[derive(Debug, Drop)]
enum Item {
    Frame(Frame),
    Piece {
        path: Name,
        offset: u64,
        bytes: Vec<u8>,
    },
}

/// A frame, or a piece of a file. Its type says that a frame is in the grammar's ranges and a piece has
/// 1 to 65,536 bytes. And where the run tells its tree and have, each block header, piece and total is
/// of that tree, and each have is that have.
#[derive(Drop)]
pub struct Said<N: Run> {
    item: Item,
    of: PhantomData<N>,
}

impl<N: Run> Model for Said<N> {
    ghost use Rattle.wdt_link.specs.Saying.{PlainSaid, IsSaid};
    ghost use Rattle.wdt_link.specs.Items.{plain};

    ghost Value = { PlainSaid };

    ghost view = { λ s. plain s.item };

    ghost invariant = { λ s. IsSaid N.told (plain s.item) };
}

/// What a link can carry. Contracts see it as a frame or a piece.
pub trait Saying {
    ghost plain: { Self → PlainSaid };
}

impl<N: Run> Saying for Said<N> {
    ghost plain = { λ s. s };
}

impl<N: Run> Said<N> {
    /// A frame that is in the grammar and of the run.
    pub fn frame(frame: Frame) -> Said<N>
        requires { IsFrameSaid N.told frame }
        ensures { result ≡ Whole frame }
    {
        Said {
            item: Item::Frame(frame),
            of: PhantomData,
        }
    }

    /// The bytes, 1 to 65,536, that the file of a path has from an offset on.
    pub fn piece(path: Name, offset: u64, bytes: Vec<u8>) -> Said<N>
        requires { IsPieceSaid N.told path offset bytes.items }
        ensures { result ≡ Part path offset bytes.items }
    {
        Said {
            item: Item::Piece {
                path,
                offset,
                bytes,
            },
            of: PhantomData,
        }
    }

    /// The frame. None exactly for a piece.
    pub fn into_frame(self) -> Option<Frame>
        ensures value { result ≡ frame_in self }
        ensures said { IfSome result (λ frame. IsFrameSaid N.told frame) }
    {
        match self.item {
            Item::Frame(frame) => Some(frame),
            Item::Piece { .. } => None,
        }
    }

    /// The bytes of the piece. None exactly for a frame.
    pub fn into_piece(self) -> Option<Vec<u8>>
        ensures value { option_map (λ bytes. bytes.items) result ≡ piece_in self }
        ensures said { IsSaid N.told self }
    {
        match self.item {
            Item::Frame(_) => None,
            Item::Piece { bytes, .. } => Some(bytes),
        }
    }

    /// The frame, lent. None exactly for a piece.
    pub fn as_frame(&self) -> Option<&Frame>
        ensures value { option_map (λ frame. frame.now) result ≡ frame_in self.now }
        ensures said { IsSaid N.told self.now }
    {
        match &self.item {
            Item::Frame(frame) => Some(frame),
            Item::Piece { .. } => None,
        }
    }

    /// The bytes of the piece, lent. None exactly for a frame.
    pub fn as_piece(&self) -> Option<&[u8]>
        ensures value { option_map (λ bytes. bytes.now) result ≡ piece_in self.now }
        ensures said { IsSaid N.told self.now }
    {
        match &self.item {
            Item::Frame(_) => None,
            Item::Piece { bytes, .. } => Some(bytes.as_slice()),
        }
    }

    /// Whether it is a frame.
    pub fn is_frame(&self) -> bool
        ensures { result ≡ is_whole self.now }
    {
        matches!(self.item, Item::Frame(_))
    }

    /// The path of a piece, and its place in that file. None exactly for a frame.
    pub fn place(&self) -> Option<(&Name, u64)>
        ensures { option_map (λ place. (place.0.now, place.1)) result ≡ place_in self.now }
    {
        match &self.item {
            Item::Frame(_) => None,
            Item::Piece { path, offset, .. } => Some((path, *offset)),
        }
    }

    /// Whether it is a piece of that path, place and length.
    pub fn is_part(&self, path: &Name, offset: u64, count: u32) -> bool
        ensures part { result ≡ true → IsPartAt path.now offset count self.now }
        ensures other { IsPartAt path.now offset count self.now → result ≡ true }
    {
        match &self.item {
            Item::Frame(_) => false,
            Item::Piece {
                path: of,
                offset: at,
                bytes,
            } => of.bytes() == path.bytes() && *at == offset && bytes.len() == count as usize,
        }
    }
}

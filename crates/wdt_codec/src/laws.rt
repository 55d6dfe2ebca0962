//! What the grammar says of whole streams.
ghost use Rattle.std.specs.Prelude.{◌≡◌, ◌++◌, ℕ, List};
ghost use Rattle.wdt_codec.specs.declared.frames.Frame.{Frame};
ghost use Rattle.wdt_codec.specs.Frames.{Fits, spell};
ghost use Rattle.wdt_codec.specs.Stream.{Message, AreMessages, stream_of};

/// No frame's spelling begins another's, so a stream has one reading. Does nothing: its contract is
/// for callers' proofs.
pub fn streams_have_one_reading()
    ensures frame { (f g : Frame) (u v : List ℕ) → Fits f → Fits g → spell f ++ u ≡ spell g ++ v → (f ≡ g) × (u ≡ v) }
    ensures stream { (ms ns : List Message) → AreMessages ms → AreMessages ns → stream_of ms ≡ stream_of ns → ms ≡ ns }
{}

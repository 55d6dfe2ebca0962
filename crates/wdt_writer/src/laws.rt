//! Laws of blocks on their way. The functions do nothing: their contracts are the laws.
ghost use Rattle.std.specs.Prelude.{◌≡◌, ℕ, ◌<◌, List, length, map, slice_set, Option, None, Some};
ghost use Rattle.wdt_units.specs.Headers.{FitsHeader};
ghost use Rattle.wdt_units.specs.declared.blocks.Header.{Header};
ghost use Rattle.wdt_logfmt.specs.Beginning.{KnownFile, begin_fault, block_of};
ghost use Rattle.wdt_logfmt.specs.Marks.{marked_of};
ghost use Rattle.wdt_logfmt.specs.View.{NamedFile};
ghost use Rattle.wdt_writer.specs.declared.parts.Part.{Part};
ghost use Rattle.wdt_writer.specs.OnWay.{AreSound, IsSettled};
ghost use Rattle.wdt_writer.specs.PlainWriter.{blocks_of, known_with, part_of, whole};

/// A block in whose way nothing stands is on its way once it begins, beside all that are: no position of it
/// is there or in another, and with it there are no more files, spans and bytes than a transfer may have.
pub fn a_block_that_may_begin_is_on_its_way()
    ensures { (known : List (Option KnownFile)) (files : List NamedFile) (parts : List (Option Part)) (h : Header) (l : ℕ)
        → FitsHeader h → AreSound known files parts → l < length parts → part_of parts l ≡ None
        → begin_fault known (map marked_of files) (blocks_of parts) h ≡ None
        → AreSound (known_with known h) files (slice_set parts l (Some (whole (block_of known h)))) }
{}

/// Whichever block on its way lands next, what is logged of it leads the files to others, which are known and
/// within the limits; and the other blocks stay on their way.
pub fn blocks_on_their_way_land_in_any_order()
    ensures { (known : List (Option KnownFile)) (files : List NamedFile) (parts : List (Option Part)) (l : ℕ) (p : Part)
        → AreSound known files parts → part_of parts l ≡ Some p → (more : List NamedFile) × IsSettled known files parts l p more }
{}

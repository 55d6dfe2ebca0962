//! Laws of what the specifications of this crate define. The functions do nothing: their contracts are
//! the laws. `proofs/ForCallers.antt` has them for the proofs of other crates.
ghost use Rattle.std.specs.Prelude.{◌≡◌, ◌⊎◌, ◌+◌, ◌≤◌, ℕ, Bool, IsTrue, List, Option, Result, length, take, drop, option_map};
ghost use Rattle.wdt_depot.specs.Disk.{Disk, HasImagesOf, Image, IsImage, IsSoundDisk, made, seen_of, synced_at, wrote};
ghost use Rattle.wdt_depot.specs.declared.failure.DepotFail.{DepotFail};
ghost use Rattle.wdt_depot.specs.Moments.{IfTold, MayDo, Since, Told};
ghost use Rattle.wdt_depot.specs.Rewritten.{IsImageRewritten, IsSameElsewhere};

/// What is read is one of the images.
pub fn what_is_read_may_be_left()
    ensures { (d : Disk) → IsSoundDisk d → IsImage d (seen_of d) }
{}

/// After a sync a crash leaves of the file what is read, and leaves nothing that it couldn't before.
/// What is read stays.
pub fn a_sync_leaves_what_is_read()
    ensures here { (path : List ℕ) (d : Disk) (i : Image) → IsImage (synced_at path d) i → i path ≡ seen_of d path }
    ensures nothing_new { (path : List ℕ) (d : Disk) → IsSoundDisk d → HasImagesOf d (synced_at path d) }
    ensures reads { (path other : List ℕ) (d : Disk) → seen_of (synced_at path d) other ≡ seen_of d other }
{}

/// What a write leaves where some of its bytes were written, in any part of its range, is among what
/// the whole write may leave.
pub fn a_part_of_a_write()
    ensures { (path : List ℕ) (offset from n : ℕ) (bytes : List ℕ) (d : Disk) → from ≤ length bytes →
        HasImagesOf (wrote path offset bytes d) (wrote path (offset + from) (take n (drop from bytes)) d) }
{}

/// A write changes its range alone: of what is read, and of each image, which has an image of the disk
/// before beside it.
pub fn a_write_stays_in_its_range()
    ensures reads { (path : List ℕ) (offset : ℕ) (bytes : List ℕ) (d : Disk) → IsImageRewritten path offset (length bytes) (seen_of d) (seen_of (wrote path offset bytes d)) }
    ensures images { (path : List ℕ) (offset : ℕ) (bytes : List ℕ) (d : Disk) (i : Image) → IsSoundDisk d → IsImage (wrote path offset bytes d) i →
        (j : Image) × IsImage d j × IsImageRewritten path offset (length bytes) j i }
{}

/// A file that is made changes no other: each image has one of the disk before beside it.
pub fn a_made_file_changes_no_other()
    ensures { (path : List ℕ) (d : Disk) (i : Image) → IsSoundDisk d → IsImage (made path d) i → (j : Image) × IsImage d j × IsSameElsewhere path j i }
{}

/// Where each image of a later disk is an image of an earlier one, all images have what all had before.
pub fn what_all_images_have_stays()
    ensures { (test : Image → Bool) (d e : Disk) → HasImagesOf d e → ((i : Image) → IsImage d i → IsTrue (test i)) → (i : Image) → IsImage e i → IsTrue (test i) }
{}

/// What holds at the start and at each moment since holds at the last.
pub fn what_holds_since_holds_at_the_last()
    ensures { (test : Disk → Bool) (a b : Option Told) → IfTold (λ t. IsTrue (test t.now)) a → Since (λ d. IsTrue (test d)) a b → IfTold (λ t. IsTrue (test t.now)) b }
{}

/// A changing call did what it does, or nothing.
pub fn a_changing_call_is_done_or_not()
    ensures { (done : Disk → Disk) (result : Result (Unit {0}) DepotFail) (d e : Disk) → MayDo done result d e → (e ≡ d) ⊎ (e ≡ done d) }
{}

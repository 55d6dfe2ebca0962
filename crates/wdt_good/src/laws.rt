//! Laws of what the specifications of this crate define. The functions do nothing: their contracts are
//! the laws. `proofs/ForCallers.antt` has them for the proofs of other crates.
//!
//! They are in the order in which a caller needs them: what is good, what a log at rest says, which
//! changes beside the log keep that, and when a batch may be appended.
ghost use Rattle.std.specs.Prelude.{◌≡◌, ◌↔◌, ℕ, false, List, Option, Result, Ok, Some, ◌++◌, ◌∷◌, [], length, IsTrue};
ghost use Rattle.std.specs.Str.{bytes_eq};
ghost use Rattle.wdt_units.specs.Tree.{File};
ghost use Rattle.wdt_units.specs.declared.failures.Failed.{Failed};
ghost use Rattle.wdt_ranges.specs.Spans.{has};
ghost use Rattle.wdt_depot.specs.Disk.{Disk, DiskFile, HasImagesOf, IfFile, Image, IsClean, IsFileImage, IsImage, IsSoundDisk, made, seen_of, synced_at, wrote};
ghost use Rattle.wdt_depot.specs.Moments.{IfTold, MayDo, OneStep, Run, Told};
ghost use Rattle.wdt_depot.specs.declared.failure.DepotFail.{DepotFail};
ghost use Rattle.wdt_logfmt.specs.declared.entry.LogEntry.{LogEntry};
ghost use Rattle.wdt_logfmt.specs.Adding.{all_added};
ghost use Rattle.wdt_logfmt.specs.View.{NamedFile, is_view, names};
ghost use Rattle.wdt_good.specs.Batch.{HoldsBatch, HoldsEntry};
ghost use Rattle.wdt_good.specs.Changing.{MayWrite, Moves};
ghost use Rattle.wdt_good.specs.Good.{Each, GoodFiles, covers, log_of, log_path};
ghost use Rattle.wdt_good.specs.Growing.{GrowsIn, IsAmong, Says};
ghost use Rattle.wdt_good.specs.LogState.{IsReady, LogOf};
ghost use Rattle.wdt_good.specs.Logged.{AllFit, AllGood, GoodSince, IsRemembered, LoggedAt, LoggedName};
ghost use Rattle.wdt_good.specs.Leading.{HasLog, Leads, MeansEither};
ghost use Rattle.wdt_good.specs.Sweeping.{AreStill, IsStill, Keeps, Swept};

/// Where each image is good for the tree alone, each is good for what its own disk has logged.
pub fn what_fits_is_good()
    ensures { (T : List File) (forgotten : List (List ℕ)) (d : Disk) → AllFit T d → AllGood T forgotten d d }
{}

/// Where each image is good for what an earlier disk had logged, each is good for the tree, and what
/// was logged is logged, but for what may be forgotten.
pub fn what_is_good_keeps_what_was_logged()
    ensures fits { (T : List File) (forgotten : List (List ℕ)) (d e : Disk) → AllGood T forgotten d e → AllFit T e }
    ensures names { (T : List File) (forgotten : List (List ℕ)) (d e : Disk) (path : List ℕ) → AllGood T forgotten d e → IsRemembered forgotten path → LoggedName d path → LoggedName e path }
    ensures covers { (T : List File) (forgotten : List (List ℕ)) (d e : Disk) (path : List ℕ) (k : ℕ) → AllGood T forgotten d e → IsRemembered forgotten path → LoggedAt d path k → LoggedAt e path k }
{}

/// A disk of which a crash leaves nothing new, as after a sync or a reopening, keeps what all images
/// had. Where its log is synced, the log stays at rest.
pub fn a_disk_with_no_new_image_stays_good()
    ensures good { (T : List File) (forgotten : List (List ℕ)) (before d e : Disk) → HasImagesOf d e → AllGood T forgotten before d → AllGood T forgotten before e }
    ensures fits { (T : List File) (d e : Disk) → HasImagesOf d e → AllFit T d → AllFit T e }
    ensures ready { (version : ℕ) (T : List File) (fs gs : List NamedFile) (es : List LogEntry) (d e : Disk) → HasImagesOf d e → IsReady version T fs gs es d → IsReady version T fs gs es e }
    ensures names { (d e : Disk) (path : List ℕ) → HasImagesOf d e → LoggedName d path → LoggedName e path }
    ensures covers { (d e : Disk) (path : List ℕ) (k : ℕ) → HasImagesOf d e → LoggedAt d path k → LoggedAt e path k }
    ensures log { (version : ℕ) (fs : List NamedFile) (end : ℕ) (d e : Disk) → HasImagesOf d e → IsSoundDisk e → IfFile IsClean (e log_path) → LogOf version fs end d → LogOf version fs end e }
{}

/// Images that are good since a moment, and then since a later one, are good since the first; and at
/// the last moment what was logged at the first is logged.
pub fn good_images_join()
    ensures joined { (T : List File) (f g : List (List ℕ)) (a b c : Option Told) → GoodSince T f a b → GoodSince T g b c → GoodSince T (f ++ g) a c }
    ensures fits { (T : List File) (forgotten : List (List ℕ)) (a b : Option Told) → IfTold (λ t. AllFit T t.now) a → GoodSince T forgotten a b → IfTold (λ t. AllFit T t.now) b }
    ensures names { (T : List File) (forgotten : List (List ℕ)) (a b : Option Told) (path : List ℕ) → GoodSince T forgotten a b →
        IsRemembered forgotten path → IfTold (λ t. LoggedName t.now path) a → IfTold (λ t. LoggedName t.now path) b }
    ensures covers { (T : List File) (forgotten : List (List ℕ)) (a b : Option Told) (path : List ℕ) (k : ℕ) → GoodSince T forgotten a b →
        IsRemembered forgotten path → IfTold (λ t. LoggedAt t.now path k) a → IfTold (λ t. LoggedAt t.now path k) b }
{}

/// A changing call of a depot whose change leaves good images leaves good images, also where it fails.
pub fn a_call_of_a_good_change_is_good()
    ensures call { (T : List File) (forgotten : List (List ℕ)) (done : Disk → Disk) (result : Result (Unit {0}) DepotFail) (a b : Option Told) →
        IfTold (λ t. AllFit T t.now) a → IfTold (λ t. AllGood T forgotten t.now (done t.now)) a → OneStep (MayDo done result) a b →
        GoodSince T forgotten a b }
    ensures sync { (T : List File) (forgotten : List (List ℕ)) (done : Disk → Disk) (result : Result (Unit {0}) Failed) (a b : Option Told) →
        IfTold (λ t. AllFit T t.now) a → IfTold (λ t. AllGood T forgotten t.now (done t.now)) a → OneStep (MayDo done result) a b →
        GoodSince T forgotten a b }
{}

/// While a log leads from some files to others and all else stays, each image is good for what was
/// logged before.
pub fn a_log_that_leads_on_is_good()
    ensures { (version : ℕ) (T : List File) (forgotten : List (List ℕ)) (fs gs : List NamedFile) (end : ℕ) (d e : Disk) (log : DiskFile)
        → IsSoundDisk d → LogOf version fs end d → Leads T forgotten fs gs d → HasLog d log e
        → ((bytes : List ℕ) → IsFileImage log bytes → MeansEither fs gs bytes) → AllGood T forgotten d e }
{}

/// The log of each image means exactly the files of the log at rest. So what they name and cover is
/// logged, and nothing else is; and where each image is good for the tree, they are good in each.
pub fn a_log_at_rest_says_what_is_logged()
    ensures means { (version : ℕ) (fs : List NamedFile) (end : ℕ) (d : Disk) (i : Image) → LogOf version fs end d → IsImage d i → log_of i ≡ Ok (record { files = fs; end = end }) }
    ensures names { (version : ℕ) (fs : List NamedFile) (end : ℕ) (d : Disk) (path : List ℕ) → LogOf version fs end d → IsSoundDisk d → (LoggedName d path ↔ IsTrue (names fs path)) }
    ensures covers { (version : ℕ) (fs : List NamedFile) (end : ℕ) (d : Disk) (path : List ℕ) (k : ℕ) → LogOf version fs end d → IsSoundDisk d → (LoggedAt d path k ↔ IsTrue (covers fs path k)) }
    ensures files { (version : ℕ) (T : List File) (fs : List NamedFile) (end : ℕ) (d : Disk) (i : Image) → LogOf version fs end d → AllFit T d → IsImage d i → GoodFiles T i fs }
    ensures stays { (version : ℕ) (fs : List NamedFile) (end : ℕ) (d e : Disk) → LogOf version fs end d → e log_path ≡ d log_path → LogOf version fs end e }
{}

/// While the log is the same and its files stay good, each image is good for what was logged before.
pub fn files_beside_the_log_may_change()
    ensures { (version : ℕ) (T : List File) (forgotten : List (List ℕ)) (fs : List NamedFile) (end : ℕ) (d e : Disk) → LogOf version fs end d → AllFit T d → Moves T fs d e → AllGood T forgotten d e }
{}

/// A write of a range in which nothing is covered, within the size of the file, leaves each image good
/// for what was logged, the log at rest, and files that are good as they are read.
pub fn a_write_beside_what_is_covered_is_good()
    ensures good { (version : ℕ) (T : List File) (forgotten : List (List ℕ)) (fs : List NamedFile) (end : ℕ) (path : List ℕ) (size offset : ℕ) (bytes : List ℕ) (d : Disk)
        → LogOf version fs end d → AllFit T d → IsSoundDisk d → MayWrite path size offset (length bytes) fs d → AllGood T forgotten d (wrote path offset bytes d) }
    ensures log { (version : ℕ) (fs : List NamedFile) (end : ℕ) (path : List ℕ) (offset : ℕ) (bytes : List ℕ) (d : Disk)
        → LogOf version fs end d → bytes_eq path log_path ≡ false → LogOf version fs end (wrote path offset bytes d) }
    ensures reads { (T : List File) (fs : List NamedFile) (path : List ℕ) (size offset : ℕ) (bytes : List ℕ) (d : Disk)
        → MayWrite path size offset (length bytes) fs d → GoodFiles T (seen_of d) fs → GoodFiles T (seen_of (wrote path offset bytes d)) fs }
    ensures moves { (T : List File) (fs : List NamedFile) (path : List ℕ) (size offset : ℕ) (bytes : List ℕ) (d : Disk)
        → IsSoundDisk d → MayWrite path size offset (length bytes) fs d → Moves T fs d (wrote path offset bytes d) }
{}

/// A file that is made where no log names one leaves each image good for what was logged, the log at
/// rest, and files that are good as they are read.
pub fn a_file_made_beside_the_named_is_good()
    ensures good { (version : ℕ) (T : List File) (forgotten : List (List ℕ)) (fs : List NamedFile) (end : ℕ) (path : List ℕ) (d : Disk)
        → LogOf version fs end d → AllFit T d → IsSoundDisk d → bytes_eq path log_path ≡ false → names fs path ≡ false → AllGood T forgotten d (made path d) }
    ensures log { (version : ℕ) (fs : List NamedFile) (end : ℕ) (path : List ℕ) (d : Disk)
        → LogOf version fs end d → bytes_eq path log_path ≡ false → LogOf version fs end (made path d) }
    ensures reads { (T : List File) (fs : List NamedFile) (path : List ℕ) (d : Disk)
        → names fs path ≡ false → GoodFiles T (seen_of d) fs → GoodFiles T (seen_of (made path d)) fs }
    ensures moves { (T : List File) (fs : List NamedFile) (path : List ℕ) (d : Disk)
        → IsSoundDisk d → bytes_eq path log_path ≡ false → names fs path ≡ false → Moves T fs d (made path d) }
{}

/// A sync of a file other than the log keeps the log, leaves nothing new and changes nothing that is
/// read; of the file itself a crash leaves what is read from then on.
pub fn a_sync_beside_the_log_keeps_all()
    ensures keeps { (path : List ℕ) (d : Disk) → bytes_eq path log_path ≡ false → IsSoundDisk d → Keeps d (synced_at path d) }
    ensures still { (path : List ℕ) (d : Disk) → IsStill (synced_at path d) path }
    ensures again { (d e f : Disk) → Keeps d e → Keeps e f → Keeps d f }
    ensures stays { (path : List ℕ) (d e : Disk) → Keeps d e → IsStill d path → IsStill e path }
    ensures more { (paths : List (List ℕ)) (path : List ℕ) (d e f : Disk) → Swept paths d e → Keeps e f → IsStill f path → Swept (paths ++ path ∷ []) d f }
    ensures reads { (T : List File) (fs : List NamedFile) (d e : Disk) → Keeps d e → GoodFiles T (seen_of d) fs → GoodFiles T (seen_of e) fs }
    ensures good { (T : List File) (forgotten : List (List ℕ)) (a b : Option Told) → IfTold (λ t. AllFit T t.now) a → Run Keeps Keeps a b → GoodSince T forgotten a b }
{}

/// Where the files that a batch leads to are good as they are read, and of each a crash leaves what is
/// read or it is in the log as it is, they are good in each image, and the disk is ready for the batch.
pub fn what_is_synced_is_ready()
    ensures files { (version : ℕ) (T : List File) (fs gs : List NamedFile) (end : ℕ) (d : Disk) (i : Image) → LogOf version fs end d → AllFit T d →
        GoodFiles T (seen_of d) gs → AreStill fs gs d → IsImage d i → GoodFiles T i gs }
    ensures ready { (version : ℕ) (T : List File) (fs gs : List NamedFile) (end : ℕ) (es : List LogEntry) (d : Disk) → LogOf version fs end d →
        AllFit T d → GoodFiles T (seen_of d) gs → AreStill fs gs d → all_added version fs es ≡ Some gs → IsReady version T fs gs es d }
{}

/// What is among files is named by them, and what is covered of it is covered.
pub fn what_is_among_files_is_named()
    ensures names { (fs : List NamedFile) (f : NamedFile) → IsAmong f fs → IsTrue (names fs f.have.path) }
    ensures covers { (fs : List NamedFile) (f : NamedFile) (k : ℕ) → IsAmong f fs → IsTrue (has f.have.spans k) → IsTrue (covers fs f.have.path k) }
{}

/// What a batch says is among the files that it leads to, and each file of before grew to one of them.
/// Where they are good in an image, the image holds what the batch says; and so with one more entry.
pub fn a_batch_is_in_what_it_leads_to()
    ensures grows { (version : ℕ) (fs gs : List NamedFile) (es : List LogEntry) (f : NamedFile) → IsTrue (is_view fs) → all_added version fs es ≡ Some gs → IsAmong f fs → GrowsIn gs f }
    ensures says { (version : ℕ) (fs gs : List NamedFile) (es : List LogEntry) → IsTrue (is_view fs) → all_added version fs es ≡ Some gs → Each (Says gs) es }
    ensures holds { (version : ℕ) (T : List File) (i : Image) (fs gs : List NamedFile) (es : List LogEntry) → IsTrue (is_view fs) →
        all_added version fs es ≡ Some gs → GoodFiles T i gs → HoldsBatch version T i fs es }
    ensures files { (version : ℕ) (T : List File) (i : Image) (fs gs : List NamedFile) (es : List LogEntry) → IsTrue (is_view fs) →
        all_added version fs es ≡ Some gs → GoodFiles T i fs → HoldsBatch version T i fs es → GoodFiles T i gs }
    ensures more { (version : ℕ) (T : List File) (i : Image) (fs gs : List NamedFile) (es : List LogEntry) (e : LogEntry) →
        all_added version fs es ≡ Some gs → HoldsBatch version T i fs es → HoldsEntry T i gs e → HoldsBatch version T i fs (es ++ e ∷ []) }
{}

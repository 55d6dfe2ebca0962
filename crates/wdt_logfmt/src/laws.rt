//! What the bytes of logs mean, whatever stands behind their end. The functions do nothing: their
//! contracts are the laws.
ghost use Rattle.std.specs.Prelude.{◌≡◌, ◌⊎◌, ℕ, false, ◌+◌, ◌<◌, ◌≤◌, ◌^◌, [], ◌∷◌, ◌++◌, List, length, map, sum_by, option_and_then, Option, None, Some, Ok, IsTrue};
ghost use Rattle.std.specs.List.{list_any};
ghost use Rattle.wdt_units.specs.Have.{PlainSpan};
ghost use Rattle.wdt_units.specs.Path.{is_lawful, is_reserved};
ghost use Rattle.wdt_units.specs.declared.blocks.Block.{Block};
ghost use Rattle.wdt_logfmt.specs.declared.entry.LogEntry.{LogEntry};
ghost use Rattle.wdt_logfmt.specs.View.{is_rising, is_view, names, Meaning, NamedFile};
ghost use Rattle.wdt_ranges.specs.Spans.{are_apart, has, total_of};
ghost use Rattle.wdt_logfmt.specs.Adding.{added, all_added, can_cover, covering, is_room_in, with_span};
ghost use Rattle.wdt_logfmt.specs.Batches.{block_entries, entries_of, has_known_file, have_known_files, is_known};
ghost use Rattle.wdt_logfmt.specs.Beginning.{free_number, known_at, known_count, number_of, with_known, KnownFile};
ghost use Rattle.wdt_logfmt.specs.Landing.{entry_number, HasRoomFor, IsAmong};
ghost use Rattle.wdt_logfmt.specs.Marks.{mark_block, marked_of, marks_of};
ghost use Rattle.wdt_logfmt.specs.Spelling.{batch_body, header, spell_all, written_version, AllFit};
ghost use Rattle.wdt_logfmt.specs.Meaning.{log_meaning};
ghost use Rattle.wdt_logfmt.specs.Reaching.{EndsAt, Reaches};

use wdt_units::MAX_BLOCK;

/// What stands behind a closed gate is never read, and each log that means something is of the version
/// that is written, and ends at such a gate. What it means is a view: lawful paths, each once, within the limits.
pub fn a_closed_gate_ends_a_log()
    ensures unread { (version : ℕ) (front : List ℕ) (files : List NamedFile) (gate : ℕ) (behind : List ℕ) → Reaches version front files
        → (gate ≡ 1 → ⊥) → log_meaning (front ++ gate ∷ behind) ≡ Ok (record { files = files; end = length front }) }
    ensures ends { (bytes : List ℕ) (meaning : Meaning) → log_meaning bytes ≡ Ok meaning → EndsAt written_version bytes meaning }
    ensures view { (bytes : List ℕ) (meaning : Meaning) → log_meaning bytes ≡ Ok meaning → IsTrue (is_view meaning.files) }
    ensures lawful { (files : List NamedFile) (path : List ℕ) → IsTrue (is_view files) → IsTrue (names files path) → IsTrue (is_lawful path) × (is_reserved path ≡ false) }
{}

/// A header leads to no file. A batch of entries that continue the files lawfully leads from an open
/// gate to the files with them, and with a closed gate behind it that is what the log means.
pub fn a_written_batch_is_read_again()
    ensures header { Reaches 1 (header 1) [] }
    ensures leads { (version : ℕ) (front : List ℕ) (files more : List NamedFile) (entries : List LogEntry) → Reaches version front files
        → length (spell_all entries) < 2 ^ 32 → AllFit entries → all_added version files entries ≡ Some more → Reaches version (front ++ 1 ∷ batch_body entries) more }
    ensures means { (version : ℕ) (front : List ℕ) (files more : List NamedFile) (entries : List LogEntry) (behind : List ℕ) → Reaches version front files
        → length (spell_all entries) < 2 ^ 32 → AllFit entries → all_added version files entries ≡ Some more
        → log_meaning (front ++ 1 ∷ (batch_body entries ++ 0 ∷ behind)) ≡ Ok (record { files = more; end = length (front ++ 1 ∷ batch_body entries) }) }
    ensures view { (version : ℕ) (files more : List NamedFile) (entries : List LogEntry) → IsTrue (is_view files) → all_added version files entries ≡ Some more → IsTrue (is_view more) }
{}

/// Entries may be added in parts, one behind the other.
pub fn a_batch_may_come_in_parts()
    ensures { (version : ℕ) (files : List NamedFile) (entries behind : List LogEntry)
        → all_added version files (entries ++ behind) ≡ option_and_then (λ more. all_added version more behind) (all_added version files entries) }
{}

/// An entry touches the file of its number alone: each other file that is there afterwards was there
/// before, as it is, and each that was there stays.
pub fn an_entry_touches_its_file()
    ensures touches { (version : ℕ) (files more : List NamedFile) (entry : LogEntry) (file : NamedFile) → added version files entry ≡ Some more
        → IsAmong file more → (file.number ≡ entry_number entry) ⊎ IsAmong file files }
    ensures leaves { (version : ℕ) (files more : List NamedFile) (entry : LogEntry) (file : NamedFile) → added version files entry ≡ Some more
        → (file.number ≡ entry_number entry → ⊥) → IsAmong file files → IsAmong file more }
{}

/// A span more makes at most one span more of a file's, and none where it begins at the end of another;
/// it makes as many bytes more as it has.
pub fn a_span_more_is_at_most_one_more()
    ensures one { (span : PlainSpan) (spans : List PlainSpan) → length (with_span span spans) ≤ length spans + 1 }
    ensures beside { (span : PlainSpan) (spans : List PlainSpan) (last : ℕ) → IsTrue (are_apart spans) → last + 1 ≡ span.offset
        → IsTrue (has spans last) → length (with_span span spans) ≤ length spans }
    ensures bytes { (span : PlainSpan) (spans : List PlainSpan) → total_of (with_span span spans) ≡ total_of spans + span.count }
{}

/// What is summed up over the files grows by no more than at the file of the number. So a span for
/// which there was room beside others can be covered, whatever is covered first, and there still is
/// room for the others.
pub fn what_has_room_can_land()
    ensures sums { (count : NamedFile → ℕ) (number more : ℕ) (span : PlainSpan) (files : List NamedFile) → IsTrue (is_rising files)
        → ((file : NamedFile) → IsAmong file files → file.number ≡ number → count (covering number span file) ≤ count file + more)
        → sum_by count (map (covering number span) files) ≤ sum_by count files + more }
    ensures lands { (files : List NamedFile) (number : ℕ) (span : PlainSpan) (cost spans bytes : ℕ) → IsTrue (is_rising files)
        → 0 < span.count → span.count ≤ MAX_BLOCK → IsTrue (list_any (is_room_in number span) files)
        → HasRoomFor files (cost + spans) (span.count + bytes)
        → ((file : NamedFile) → IsAmong file files → file.number ≡ number → length (with_span span file.have.spans) ≤ length file.have.spans + cost)
        → IsTrue (can_cover files number span) × HasRoomFor (map (covering number span) files) spans bytes }
{}

/// The marks of the files that a block's entries lead to are the marks of before with the block. So the
/// marks of what landed are those of the files that its entries lead to.
pub fn marks_follow_entries()
    ensures one { (known : List (Option KnownFile)) (files more : List NamedFile) (block : Block) → IsTrue (is_rising files) → IsTrue (has_known_file known block)
        → all_added written_version files (block_entries known files block) ≡ Some more → map marked_of more ≡ mark_block (map marked_of files) block }
    ensures all { (known : List (Option KnownFile)) (files more : List NamedFile) (blocks : List Block) → IsTrue (is_view files) → IsTrue (have_known_files known blocks)
        → all_added written_version files (entries_of known files blocks) ≡ Some more → map marked_of more ≡ marks_of files blocks }
{}

/// The entries of further blocks stand behind those of the blocks before, as if these were logged.
pub fn blocks_are_logged_one_by_one()
    ensures { (known : List (Option KnownFile)) (files more : List NamedFile) (blocks behind : List Block) → all_added written_version files (entries_of known files blocks) ≡ Some more
        → entries_of known files (blocks ++ behind) ≡ entries_of known files blocks ++ entries_of known more behind }
{}

/// A file that becomes known gets a number that no file had, which is no greater than how many are
/// known. All other numbers stay, and so do the entries of blocks whose files were known.
pub fn a_new_file_gets_a_free_number()
    ensures free { (known : List (Option KnownFile)) → known_at known (free_number known) ≡ None }
    ensures few { (known : List (Option KnownFile)) → free_number known ≤ known_count known }
    ensures there { (known : List (Option KnownFile)) (file : KnownFile) → known_at (with_known known file) (free_number known) ≡ Some file }
    ensures others { (known : List (Option KnownFile)) (file : KnownFile) (number : ℕ) → (number ≡ free_number known → ⊥)
        → known_at (with_known known file) number ≡ known_at known number }
    ensures stays { (known : List (Option KnownFile)) (file : KnownFile) (number : ℕ) → IsTrue (is_known known number) → known_at (with_known known file) number ≡ known_at known number }
    ensures count { (known : List (Option KnownFile)) (file : KnownFile) → known_count (with_known known file) ≡ known_count known + 1 }
    ensures entries { (known : List (Option KnownFile)) (file : KnownFile) (files : List NamedFile) (blocks : List Block) → IsTrue (have_known_files known blocks)
        → entries_of (with_known known file) files blocks ≡ entries_of known files blocks }
{}

/// The number of a path is that of a known file with the path; where it has none, no known file has it.
pub fn a_number_is_that_of_a_known_file()
    ensures found { (known : List (Option KnownFile)) (path : List ℕ) (number : ℕ) → number_of known path ≡ Some number
        → (file : KnownFile) × (known_at known number ≡ Some file) × (file.path ≡ path) }
    ensures unknown { (known : List (Option KnownFile)) (path : List ℕ) (number : ℕ) (file : KnownFile) → number_of known path ≡ None → known_at known number ≡ Some file → file.path ≡ path → ⊥ }
{}

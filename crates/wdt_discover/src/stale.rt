//! Whether the files that a destination names are those of the tree.
ghost use Rattle.std.specs.Prelude.{◌≡◌, ◌≢◌, true, None, Some, not, map, IfErr, OnOk, IsTrue};
ghost use Rattle.std.specs.List.{list_all};
ghost use Rattle.wdt_ranges.specs.Files.{have_file};
ghost use Rattle.wdt_rest.specs.Fitting.{found_in, has_found, fits};
ghost use Rattle.wdt_rest.specs.RestOf.{has_set};
ghost use Rattle.wdt_discover.specs.declared.fail.PlanFail.TheVariants.{NoMemory as OutOfMemory};
ghost use Rattle.wdt_discover.specs.Plan.{stale_of, first_stale};

use crate::fail::PlanFail;
use wdt_ranges::FileHave;
use wdt_tree::Manifest;
use wdt_units::Name;

// Refuses the first file that isn't one of the tree.
pub fn check_files(manifest: &Manifest, files: &[FileHave]) -> Result<(), PlanFail>
    ensures accepted { OnOk result (first_stale manifest.now (map have_file files.now) ≡ None) }
    ensures sets { OnOk result (list_all has_set (map have_file files.now) ≡ true) }
    ensures refused { IfErr result (λ e. e ≢ OutOfMemory → first_stale manifest.now (map have_file files.now) ≡ Some e) }
{
    for file in files {
        check_file(manifest, file)?;
    }
    Ok(())
}

// Refuses a file that isn't one of the tree.
fn check_file(manifest: &Manifest, file: &FileHave) -> Result<(), PlanFail>
    ensures accepted { OnOk result (fits manifest.now (have_file file.now) ≡ true) }
    ensures set { IsTrue (has_set (have_file file.now)) }
    ensures other { IfErr result (λ e. e ≢ OutOfMemory → IsTrue (not (fits manifest.now (have_file file.now)))) }
    ensures refused { IfErr result (λ e. e ≢ OutOfMemory → e ≡ stale_of manifest.now (have_file file.now)) }
{
    // Nothing is read: where the spans are counted, it is said that they are a set.
    let _ = file.spans.count();
    let found = found_in(manifest, &file.path);
    if has_found(found, file) {
        return Ok(());
    }
    Err(PlanFail::Stale {
        path: file.path.copy()?,
        logged: (file.size, file.stamp),
        found,
    })
}

// The size and the stamp of the tree's file of a path, where it has one.
fn found_in(manifest: &Manifest, path: &Name) -> Option<(u64, u64)>
    ensures { result ≡ found_in manifest.now path.now }
{
    // Nothing is read: where the files are counted, it is said that their paths rise.
    let _ = manifest.count();
    match manifest.find(path) {
        Some(at) => {
            let entry = manifest.entry(at);
            Some((entry.size, entry.stamp))
        }
        None => None,
    }
}

// Whether a file has the size and the stamp that were found.
fn has_found(found: Option<(u64, u64)>, file: &FileHave) -> bool
    ensures { result ≡ has_found found (have_file file.now) }
{
    match found {
        Some((size, stamp)) => size == file.size && stamp == file.stamp,
        None => false,
    }
}

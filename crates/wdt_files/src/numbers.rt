//! The numbers of paths.
ghost use Rattle.std.specs.Prelude.{◌≡◌, ℕ, List, OnErr, OnOk, Some, if◌then◌else◌};
ghost use Rattle.std.specs.Str.{bytes_eq};
ghost use Rattle.wdt_files.specs.Slots.{number_in};

use std::alloc::Global;
use std::collections::BTreeMap;
use wdt_units::{Name, NoMemory};

/// The number of a path, where it has one.
pub fn number_of(numbers: &BTreeMap<String, u32>, path: &Name) -> Option<u32>
    ensures { result ≡ number_in numbers.now path.now }
{
    numbers.get(path.text()).copied()
}

/// Gives a path a number.
pub fn set_number(
    numbers: &mut BTreeMap<String, u32>,
    alloc: Global,
    path: &Name,
    number: u32,
) -> Result<(), NoMemory>
    ensures set { OnOk result ((other : List ℕ)
        → number_in numbers.new other ≡ (if bytes_eq path.now other then Some number else number_in numbers.old other)) }
    ensures unchanged { OnErr result ((other : List ℕ) → number_in numbers.new other ≡ number_in numbers.old other) }
{
    let key = String::from_str(alloc, path.text())?;
    numbers.insert(key, number)?;
    Ok(())
}

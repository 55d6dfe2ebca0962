//! The entered spots of a depot.
ghost use Rattle.std.specs.Prelude.{◌≡◌, ℕ, ◌+◌, ◌<◌, ◌++◌, List, [], ◌∷◌, length, map, IfOk, OnErr, IsOkUnless, None, is_some, option_map};
ghost use Rattle.wdt_depot.specs.Spots.{entered_view};
ghost use Rattle.wdt_depot.specs.State.{path_of, without};

use crate::failure::DepotFail;
use wdt_units::{Name, Spot};

/// An entered spot: its number and its path.
#[derive(Debug, Drop)]
pub struct Entered {
    pub number: u16,
    pub path: Name,
}

/// The path of a spot, or None where it isn't entered.
pub fn path_at(spots: &Vec<Entered>, spot: Spot) -> Option<&Name>
    ensures { option_map (λ name. name.now) result ≡ path_of spot.0 (map entered_view spots.now.items) }
{
    for entered in spots {
        if entered.number == spot.0 {
            return Some(&entered.path);
        }
    }
    None
}

// Whether a spot has the number.
fn is_taken(spots: &Vec<Entered>, number: u16) -> bool
    ensures { result ≡ is_some (path_of number (map entered_view spots.now.items)) }
{
    for entered in spots {
        if entered.number == number {
            return true;
        }
    }
    false
}

// A number that no spot has.
fn free_number(spots: &Vec<Entered>) -> u16
    requires { length spots.now.items < 32 }
    ensures { path_of result (map entered_view spots.now.items) ≡ None }
{
    for number in 0..32 {
        if !is_taken(spots, number) {
            return number;
        }
    }
    // Fewer spots can't have all of the numbers.
    32
}

/// Enters a path at a number that no spot has. After want of memory nothing has changed.
pub fn push_spot(spots: &mut Vec<Entered>, path: &Name) -> Result<Spot, DepotFail>
    requires { length spots.old.items < 32 }
    ensures fresh { IfOk result (λ spot. path_of spot.0 (map entered_view spots.old.items) ≡ None) }
    ensures spots { IfOk result (λ spot. map entered_view spots.new.items ≡ map entered_view spots.old.items ++ (spot.0, path.now) ∷ []) }
    ensures err { OnErr result (spots.new.items ≡ spots.old.items) }
    ensures memory { IsOkUnless result DepotFail.NoMemory }
{
    let number = free_number(spots);
    let path = path.copy()?;
    spots.push(Entered { number, path })?;
    Ok(Spot(number))
}

/// Takes a spot out. The others stay as they are.
pub fn drop_spot(spots: &mut Vec<Entered>, spot: Spot)
    ensures { map entered_view spots.new.items ≡ without spot.0 (map entered_view spots.old.items) }
{
    for i in 0..spots.len() {
        if spots[i].number == spot.0 {
            let _ = spots.remove(i);
            return;
        }
    }
}

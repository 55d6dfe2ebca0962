//! The numbers behind the word of a line.
ghost use Rattle.std.specs.Prelude.{◌≡◌};
ghost use Rattle.wdt_units.specs.Decimal.{number_of as value_spelled};
ghost use Rattle.wdt_script.specs.Numbers.{behind, numbers_of};
ghost use Rattle.wdt_script.specs.Lines.{fields_of};

use crate::lines::first_field;
use wdt_units::number_of;

/// Numbers in their order.
#[derive(Clone, Copy, Debug, PartialEq, Eq)]
pub enum Numbers {
    Zero,
    One(u64),
    Two(u64, u64),
    Three(u64, u64, u64),
}

impl Numbers {
    // The same behind another number, if there aren't too many.
    fn behind(self, first: u64) -> Option<Numbers>
        ensures { result ≡ behind first self }
    {
        match self {
            Numbers::Zero => Some(Numbers::One(first)),
            Numbers::One(second) => Some(Numbers::Two(first, second)),
            Numbers::Two(second, third) => Some(Numbers::Three(first, second, third)),
            Numbers::Three(..) => None,
        }
    }
}

/// The numbers that are spelled by fields, which stand with one space between: None where one field
/// spells no number below 2^64, or there are more than three.
pub fn numbers_of(fields: &[u8]) -> Option<Numbers>
    ensures { result ≡ numbers_of (fields_of fields.now) }
{
    let (field, more) = first_field(fields);
    let Some(first) = field_number(field) else {
        return None;
    };
    let behind_it = match more {
        Some(more) => numbers_of(more),
        None => Some(Numbers::Zero),
    };
    match behind_it {
        Some(numbers) => numbers.behind(first),
        None => None,
    }
}

// The number below 2^64 that a field spells.
fn field_number(field: &[u8]) -> Option<u64>
    ensures { result ≡ value_spelled field.now }
{
    match str::from_utf8(field) {
        Ok(word) => number_of(word),
        Err(_) => None,
    }
}

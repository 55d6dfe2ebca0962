//! Numbers within limits.
ghost use Rattle.std.specs.Prelude.{◌≡◌, ◌≤◌, IfSome};
ghost use Rattle.wdt_words.specs.Numbers.{number_in, within, IsWithin};

use wdt_units::number_of;

// The number that the word spells, where it is within the limits.
pub fn number_in(low: u64, high: u64, word: &str) -> Option<u64>
    ensures value { result ≡ number_in low high word.now }
    ensures within { IfSome result (IsWithin low high) }
{
    match number_of(word) {
        Some(number) => within(low, high, number),
        None => None,
    }
}

fn within(low: u64, high: u64, number: u64) -> Option<u64>
    ensures value { result ≡ within low high number }
    ensures within { IfSome result (IsWithin low high) }
{
    if low <= number && number <= high {
        Some(number)
    } else {
        None
    }
}

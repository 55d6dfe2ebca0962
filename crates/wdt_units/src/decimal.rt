//! Numbers in words.
ghost use Rattle.std.specs.Prelude.{◌≡◌, ◌≢◌, ℕ, ◌<◌, ◌^◌, IfSome, IsNone};
ghost use Rattle.std.specs.Fmt.{decimal};
ghost use Rattle.wdt_units.specs.Decimal.{begins_number, number_of};

/// The number that a word spells: its decimal digits, without a sign and without zeros in front. None
/// where it spells no number below 2^64.
pub fn number_of(word: &str) -> Option<u64>
    ensures value { result ≡ number_of word.now }
    ensures spelled { IfSome result (λ n. word.now ≡ decimal n) }
    ensures other { IsNone result → (n : ℕ) → n < 2 ^ 64 → word.now ≢ decimal n }
{
    if begins_number(word) {
        word.parse::<u64>().ok()
    } else {
        None
    }
}

// Whether a word is 0, or begins with another digit. (A parse would take a sign and zeros, too.)
fn begins_number(word: &str) -> bool
    ensures { result ≡ begins_number word.now }
{
    match word.as_bytes() {
        [] => false,
        [b'0'] => true,
        [first, ..] => b'1' <= *first && *first <= b'9',
    }
}

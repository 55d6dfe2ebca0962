//! Words that may name a folder or a host.
ghost use Rattle.std.specs.Prelude.{◌≡◌};
ghost use Rattle.wdt_words.specs.Names.{is_name};

/// Whether a word may name a folder or a host.
pub fn is_name(word: &str) -> bool
    ensures { result ≡ is_name word.now }
{
    match word.as_bytes() {
        [] => false,
        [first, ..] => *first != b'-',
    }
}

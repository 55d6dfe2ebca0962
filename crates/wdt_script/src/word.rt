//! The words that lines begin with.
ghost use Rattle.std.specs.Prelude.{◌≡◌};
ghost use Rattle.std.specs.Str.{bytes_eq};
ghost use Rattle.wdt_script.specs.Words.{word_of};

/// The word of a line.
#[derive(Clone, Copy, Debug, PartialEq, Eq)]
pub enum Word {
    S,
    R,
    Cut,
    Deny,
    Refuse,
    Stop,
    Settle,
    Resume,
}

/// The word that these bytes spell.
pub fn word_of(bytes: &[u8]) -> Option<Word>
    ensures { result ≡ word_of bytes.now }
{
    if is(bytes, "s") {
        return Some(Word::S);
    }
    if is(bytes, "r") {
        return Some(Word::R);
    }
    if is(bytes, "cut") {
        return Some(Word::Cut);
    }
    if is(bytes, "deny") {
        return Some(Word::Deny);
    }
    if is(bytes, "refuse") {
        return Some(Word::Refuse);
    }
    if is(bytes, "stop") {
        return Some(Word::Stop);
    }
    if is(bytes, "settle") {
        return Some(Word::Settle);
    }
    if is(bytes, "resume") {
        return Some(Word::Resume);
    }
    None
}

fn is(bytes: &[u8], word: &str) -> bool
    ensures { result ≡ bytes_eq bytes.now word.now }
{
    bytes == word.as_bytes()
}

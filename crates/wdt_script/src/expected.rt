//! What to tell a user of a line that has no reading.
ghost use Rattle.std.specs.Prelude.{◌≡◌};
ghost use Rattle.wdt_script.specs.Lines.{line_at};

use crate::lines::{first_field, line_end};
use crate::script::{MAX_LINE, MAX_LINES};
use crate::word::{Word, word_of};

/// The line of this number, from 1, without the byte that ends it. It is empty where there is none.
pub fn line_at(bytes: &[u8], line: u32) -> &[u8]
    ensures { result.now ≡ line_at bytes.now line }
{
    let mut start = 0;
    let mut left = line;
    while left > 1 && start < bytes.len() {
        start = line_end(bytes, start) + 1;
        left -= 1;
    }
    if start >= bytes.len() {
        return &[];
    }
    &bytes[start..line_end(bytes, start)]
}

/// What was expected where the line of this number, from 1, has no reading: the form of its first word
/// where that is known.
pub fn expected_at(number: u32, line: &[u8]) -> &'static str {
    if number > MAX_LINES {
        return "at most 65536 lines";
    }
    if line.len() > MAX_LINE {
        return "at most 80 bytes";
    }
    match word_of(first_field(line).0) {
        Some(Word::S) => "s LANE, or s LANE TIMES with 1 to 1000000 times",
        Some(Word::R) => "r LANE, or r LANE TIMES with 1 to 1000000 times",
        Some(Word::Cut) => "cut LANE DOWN UP, with numbers of bytes up to 4294967295",
        Some(Word::Deny) => "deny LANE",
        Some(Word::Refuse) => "refuse LANE",
        Some(Word::Stop) => "stop CALLS PICK, with 1 to 1000000 calls and a pick up to 4294967295",
        Some(Word::Settle) => "settle",
        Some(Word::Resume) => "resume",
        None => "s, r, cut, deny, refuse, stop, settle, resume, or # and a remark",
    }
}

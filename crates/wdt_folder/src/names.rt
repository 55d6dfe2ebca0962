// Names that aren't UTF-8. A listing says that there is one, and here it is looked for.
use std::alloc::Global;
use std::io::Read;
use std::rt::Files;
use std::str;

// How many bytes of names are read at a time.
const PIECE: usize = 4_096;

// The first name in a folder that isn't UTF-8. None where the folder can't be read again, or memory is
// out.
pub fn odd_name<R: Files>(rt: &R, alloc: Global, folder: &str) -> Option<Vec<u8>> {
    let mut names = rt.open_dir(folder).ok()?;
    let mut piece = [0; PIECE];
    for _ in 0..u64::MAX {
        let count = names.read(&mut piece).ok()?;
        if count == 0 {
            break;
        }
        if let Some(name) = odd_among(&piece[..count]) {
            return Vec::from_slice(alloc, name).ok();
        }
    }
    None
}

// Each name ends with a 0, and a piece has whole names.
fn odd_among(names: &[u8]) -> Option<&[u8]> {
    names
        .split(|byte| *byte == 0)
        .find(|name| str::from_utf8(name).is_err())
}

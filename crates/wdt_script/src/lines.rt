//! The parts of a text: its lines, and the fields of a line.
ghost use Rattle.std.specs.Prelude.{◌≡◌, ◌≤◌, ◌<◌, ◌+◌, ◌-◌, ◌==◌, ◌∷◌, length, take, drop};
ghost use Rattle.std.specs.List.{position, position_or_len};
ghost use Rattle.wdt_script.specs.Lines.{lines_of, CutsField};

/// Where the line that begins at a place ends: at its line feed, or at the end of the text.
pub fn line_end(bytes: &[u8], start: usize) -> usize
    requires { start < length bytes.now }
    ensures line { lines_of (drop start bytes.now) ≡ take (result - start) (drop start bytes.now) ∷ lines_of (drop (result + 1) bytes.now) }
    ensures least { start ≤ result }
    ensures most { result ≤ length bytes.now }
{
    start + part_len(&bytes[start..], b'\n')
}

/// The first field of a line, and what stands behind the space that ends it, where one does.
pub fn first_field(line: &[u8]) -> (&[u8], Option<&[u8]>)
    ensures { CutsField line.now result }
{
    let end = part_len(line, b' ');
    if end == line.len() {
        (line, None)
    } else {
        (&line[..end], Some(&line[end + 1..]))
    }
}

// The length of the part before the first such byte, or of all where there is none.
fn part_len(bytes: &[u8], end: u8) -> usize
    ensures value { result ≡ position_or_len (λ b. b == end) bytes.now }
    ensures within { result ≤ length bytes.now }
{
    match first_at(bytes, end) {
        Some(at) => at,
        None => bytes.len(),
    }
}

// The place of the first such byte.
fn first_at(bytes: &[u8], end: u8) -> Option<usize>
    ensures { result ≡ position (λ b. b == end) bytes.now }
{
    bytes.iter().position(|byte| *byte == end)
}

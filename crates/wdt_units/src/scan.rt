//! A path read byte for byte.
//!
//! Both readers of paths stand on this scan: `Name::read`, which has all the bytes, and a reader of
//! frames, which has to name the first byte after which no path of a stated length begins so.
ghost use Rattle.std.specs.Prelude.{◌≡◌};
ghost use Rattle.wdt_units.specs.Scan.{lead, among, next, need, within};

/// What the bytes of a path so far say of the next one.
#[derive(Clone, Copy, Debug, PartialEq, Eq)]
pub enum PathScan {
    /// A part begins.
    Start,
    /// The part is a dot so far.
    Dot,
    /// The part is two dots so far.
    Dots,
    /// A part that may end here.
    Plain,
    /// One byte of a character is wanted.
    Last,
    /// Two bytes of a character are wanted.
    Two,
    /// Three bytes of a character are wanted.
    Three,
    /// The byte `E0` was read.
    AfterE0,
    /// The byte `ED` was read.
    AfterEd,
    /// The byte `F0` was read.
    AfterF0,
    /// The byte `F4` was read.
    AfterF4,
}

/// The state behind a byte that `left` bytes follow; None where no path of that length goes on so.
pub fn scan_on(scan: PathScan, byte: u8, left: usize) -> Option<PathScan>
    ensures { result ≡ within left (next scan byte) }
{
    match scan_byte(scan, byte) {
        None => None,
        Some(after) => if least_left(after) <= left {
            Some(after)
        } else {
            None
        },
    }
}

fn scan_byte(scan: PathScan, byte: u8) -> Option<PathScan>
    ensures { result ≡ next scan byte }
{
    match scan {
        PathScan::Start => match byte {
            47 => None,
            46 => Some(PathScan::Dot),
            _ => first_byte(byte),
        },
        PathScan::Dot => match byte {
            47 => None,
            46 => Some(PathScan::Dots),
            _ => first_byte(byte),
        },
        PathScan::Dots => if byte == 47 { None } else { first_byte(byte) },
        PathScan::Plain => if byte == 47 {
            Some(PathScan::Start)
        } else {
            first_byte(byte)
        },
        PathScan::Last => byte_among(byte, 128, 191, PathScan::Plain),
        PathScan::Two => byte_among(byte, 128, 191, PathScan::Last),
        PathScan::Three => byte_among(byte, 128, 191, PathScan::Two),
        PathScan::AfterE0 => byte_among(byte, 160, 191, PathScan::Last),
        PathScan::AfterEd => byte_among(byte, 128, 159, PathScan::Last),
        PathScan::AfterF0 => byte_among(byte, 144, 191, PathScan::Two),
        PathScan::AfterF4 => byte_among(byte, 128, 143, PathScan::Two),
    }
}

fn first_byte(byte: u8) -> Option<PathScan>
    ensures { result ≡ lead byte }
{
    match byte {
        0 => None,
        1..=127 => Some(PathScan::Plain),
        128..=193 => None,
        194..=223 => Some(PathScan::Last),
        224 => Some(PathScan::AfterE0),
        225..=236 => Some(PathScan::Two),
        237 => Some(PathScan::AfterEd),
        238..=239 => Some(PathScan::Two),
        240 => Some(PathScan::AfterF0),
        241..=243 => Some(PathScan::Three),
        244 => Some(PathScan::AfterF4),
        _ => None,
    }
}

fn byte_among(byte: u8, low: u8, high: u8, after: PathScan) -> Option<PathScan>
    ensures { result ≡ among low high after byte }
{
    if byte < low || high < byte {
        None
    } else {
        Some(after)
    }
}

// The least number of bytes that end a path from here.
fn least_left(scan: PathScan) -> usize
    ensures { result ≡ need scan }
{
    match scan {
        PathScan::Plain => 0,
        PathScan::Start | PathScan::Dot | PathScan::Dots | PathScan::Last => 1,
        PathScan::Two | PathScan::AfterE0 | PathScan::AfterEd => 2,
        PathScan::Three | PathScan::AfterF0 | PathScan::AfterF4 => 3,
    }
}

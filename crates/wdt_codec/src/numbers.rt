//! Numbers of a range.
ghost use Rattle.std.specs.Prelude.{◌≡◌, ◌≤◌, ◌<◌, ◌^◌, length, IfOk};
ghost use Rattle.wdt_codec.specs.Reading.{Answers, number_at};

use crate::stop::Stop;
use byteorder::{BigEndian, ByteOrder};

/// A number of `width` bytes from `low` to `high`, high byte first.
pub fn number(bytes: &[u8], width: usize, low: u64, high: u64) -> Result<(u64, &[u8]), Stop>
    requires ranged { low ≤ high }
    requires fits { high < 256 ^ width }
    requires some { 1 ≤ width }
    requires narrow { width ≤ 8 }
    ensures reads { Answers (λ x. (x.0, x.1.now)) result (number_at width low high bytes.now) }
    ensures ranged { IfOk result (λ x. (low ≤ x.0) × (x.0 ≤ high)) }
{
    if width <= bytes.len() {
        let value = BigEndian::read_uint(bytes, width);
        if low <= value && value <= high {
            return Ok((value, &bytes[width..]));
        }
    }
    number_slow(bytes, width, low, high)
}

// Byte by byte: the place where no number of the range begins so, or that more bytes are wanted.
fn number_slow(bytes: &[u8], width: usize, low: u64, high: u64) -> Result<(u64, &[u8]), Stop>
    requires ranged { low ≤ high }
    requires fits { high < 256 ^ width }
    requires narrow { width ≤ 8 }
    ensures { Answers (λ x. (x.0, x.1.now)) result (number_at width low high bytes.now) }
{
    let mut before: u64 = 0;
    for k in 0..width {
        if k >= bytes.len() {
            return Err(Stop::NotYet);
        }
        let shift = 8 * (width - 1 - k) as u32;
        let next = before * 256 + bytes[k] as u64;
        if next < low >> shift {
            return Err(Stop::Bad(bytes.len() - k));
        }
        if next > high >> shift {
            return Err(Stop::Bad(bytes.len() - k));
        }
        before = next;
    }
    Ok((before, &bytes[width..]))
}

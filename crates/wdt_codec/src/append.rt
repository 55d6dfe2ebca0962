//! Bytes behind those that are there.
ghost use Rattle.std.specs.Prelude.{◌≡◌, ◌++◌, ◌≤◌, length, take, drop, OnOk, OnErr};
ghost use Rattle.byteorder.specs.Endian.{big_bytes};

use wdt_units::NoMemory;

pub fn append(into: &mut Vec<u8>, text: &[u8]) -> Result<(), NoMemory>
    ensures spelled { OnOk result (into.new.items ≡ into.old.items ++ text.now) }
    ensures unchanged { OnErr result (into.new.items ≡ into.old.items) }
{
    match into.extend_from_slice(text) {
        Ok(()) => Ok(()),
        Err(_) => Err(NoMemory),
    }
}

pub fn append_all(into: &mut Vec<u8>, a: &[u8], b: &[u8], c: &[u8]) -> Result<(), NoMemory>
    ensures spelled { OnOk result (into.new.items ≡ into.old.items ++ (a.now ++ (b.now ++ c.now))) }
    ensures begun { OnErr result (take (length into.old.items) into.new.items ≡ into.old.items) }
{
    append(into, a)?;
    append(into, b)?;
    append(into, c)
}

pub fn put_byte(text: &mut [u8], byte: u8)
    requires { 1 ≤ length text.old }
    ensures { text.new ≡ big_bytes 1 byte ++ drop 1 text.old }
{
    text[0] = byte;
}

//! Lawful paths.
ghost use Rattle.std.specs.Prelude.{◌≡◌, ◌↔◌, ◌≤◌, false, [], string_bytes, IfOk, OnOk, IsTrue, IsErrOf};
ghost use Rattle.std.specs.String.{string_capacity};
ghost use Rattle.wdt_units.specs.declared.path.NameFail.TheVariants.{NoMemory as OutOfMemory};
ghost use Rattle.wdt_units.specs.Path.{is_lawful, is_reserved};

use crate::failures::NoMemory;
use crate::limits::MAX_PATH;
use crate::scan::{PathScan, scan_on};
use std::alloc::{AllocError, Global};
use std::marker::Model;
use std::str::from_utf8_unchecked;
use thiserror::Error;

/// Where a receiver keeps its log.
pub const LOG_PATH: [u8; 5] = *b".wlog";

/// Where a receiver writes a new log before it puts it in the other's place.
pub const NEW_LOG_PATH: [u8; 9] = *b".wlog.new";

/// Why bytes made no name.
#[derive(Clone, Copy, Debug, PartialEq, Eq, Error)]
pub enum NameFail {
    /// The bytes aren't a lawful path.
    #[error("the path is not lawful")]
    Bad,
    #[error("out of memory")]
    NoMemory,
}

impl From<NoMemory> for NameFail {
    ghost from_gives = { λ _ e. e ≡ OutOfMemory };

    fn from(_: NoMemory) -> NameFail {
        NameFail::NoMemory
    }
}

impl From<AllocError> for NameFail {
    ghost from_gives = { λ _ e. e ≡ OutOfMemory };

    fn from(_: AllocError) -> NameFail {
        NameFail::NoMemory
    }
}

/// A lawful path, seen as its bytes: UTF-8 of 1 to 1,024 bytes without the byte 0, whose parts
/// between `/` are each neither empty nor `.` nor `..`.
#[derive(Debug, Drop)]
pub struct Name {
    text: String,
}

impl Model for Name {
    ghost use Rattle.std.specs.Prelude.{List, ℕ, string_bytes, IsTrue};
    ghost use Rattle.wdt_units.specs.Path.{is_lawful};

    ghost Value = { List ℕ };

    ghost view = { λ n. string_bytes n.text };

    ghost invariant = { λ n. IsTrue (is_lawful (string_bytes n.text)) };
}

impl Name {
    /// The name that these bytes spell.
    pub fn read(alloc: Global, bytes: &[u8]) -> Result<Name, NameFail>
        ensures value { IfOk result (λ name. name ≡ bytes.now) }
        ensures lawful { OnOk result (IsTrue (is_lawful bytes.now)) }
        ensures bad { IsErrOf result NameFail.Bad ↔ (is_lawful bytes.now ≡ false) }
    {
        if !is_lawful(bytes) {
            return Err(NameFail::Bad);
        }
        Ok(Name::of_lawful(alloc, bytes)?)
    }

    /// The name of bytes that are known to be a lawful path.
    pub fn of_lawful(alloc: Global, bytes: &[u8]) -> Result<Name, NoMemory>
        requires { IsTrue (is_lawful bytes.now) }
        ensures { IfOk result (λ name. name ≡ bytes.now) }
    {
        // A lawful path is UTF-8, so its bytes are not read a second time.
        let text = String::from_str(alloc, unsafe { from_utf8_unchecked(bytes) })?;
        Ok(Name { text })
    }

    pub fn bytes(&self) -> &[u8]
        ensures value { result.now ≡ self.now }
        ensures lawful { IsTrue (is_lawful self.now) }
    {
        self.text.as_bytes()
    }

    pub fn text(&self) -> &str
        ensures { result.now ≡ self.now }
    {
        self.text.as_str()
    }

    /// The same name in memory of its own.
    pub fn copy(&self) -> Result<Name, NoMemory>
        ensures { IfOk result (λ name. name ≡ self.now) }
    {
        let text = self.text.clone()?;
        Ok(Name { text })
    }

    /// The same name in memory that was made before: this text is empty, and has room for the longest
    /// path.
    pub fn copy_to(&self, mut room: String) -> Name
        requires empty { string_bytes room ≡ [] }
        requires fits { MAX_PATH ≤ string_capacity room }
        ensures { result ≡ self.now }
    {
        room.push_str(self.text.as_str()).unwrap();
        Name { text: room }
    }

    /// Whether the path is one of the receiver's own files, `.wlog` or `.wlog.new`.
    pub fn reserved(&self) -> bool
        ensures { result ≡ is_reserved self.now }
    {
        is_reserved(self.text.as_bytes())
    }
}

/// Whether a path is one of the receiver's own files, `.wlog` or `.wlog.new`.
pub fn is_reserved(path: &[u8]) -> bool
    ensures { result ≡ is_reserved path.now }
{
    path == LOG_PATH.as_slice() || path == NEW_LOG_PATH.as_slice()
}

// Whether the scan goes through all the bytes.
fn is_lawful(bytes: &[u8]) -> bool
    ensures { result ≡ is_lawful bytes.now }
{
    if bytes.is_empty() {
        return false;
    }
    if bytes.len() > MAX_PATH {
        return false;
    }
    let mut scan = PathScan::Start;
    for k in 0..bytes.len() {
        match scan_on(scan, bytes[k], bytes.len() - 1 - k) {
            None => return false,
            Some(after) => {
                scan = after;
            }
        }
    }
    true
}

//! How an end fares.
ghost use Rattle.std.specs.Prelude.{◌≡◌};
ghost use Rattle.wdt_sender_fsm.specs.Rules.{is_failure, code_of, starved, judged};

use crate::peers::PeerKind;
use wdt_units::Name;

/// Why a transfer is refused before anything of it is sent.
#[derive(Debug, Drop)]
pub enum RefusedKind {
    /// The script's line of this number, from 1, has no reading.
    BadScript {
        line: u32,
    },
    /// The path at this place of the listing, from 0, isn't lawful.
    BadPath {
        at: u32,
    },
    /// The path at this place of the listing is that of one of the receiver's own files.
    Reserved {
        at: u32,
    },
    /// The path at this place of the listing stands at an earlier place, too.
    Twice {
        at: u32,
    },
    /// The listing has so many files, more than 262,144.
    TooMany {
        count: u32,
    },
    /// The file at this place of the listing is too large, or the files up to it together are.
    TooLarge {
        at: u32,
    },
    /// The plan would have so many blocks, more than 1,048,576.
    TooManyBlocks {
        count: u64,
    },
    /// The destination names a file that the tree lacks or has with another size or stamp. Of each
    /// the size in bytes is told and then the stamp.
    Stale {
        path: Name,
        /// What the destination says of the file.
        logged: (u64, u64),
        /// What the tree says of it, or None where the tree lacks it.
        found: Option<(u64, u64)>,
    },
    /// The log has no reading from this place on, counted in bytes from 0.
    BadLog {
        at: u64,
    },
}

/// How an end fares, and in the end how it ended. All but `Going`, `Done` and `Link` are failures.
#[derive(Debug, Drop)]
pub enum EndAnswer {
    /// Some lane still has something to do.
    Going,
    /// Everything has landed, and each lane is acknowledged or closed.
    Done,
    /// The source failed.
    Source,
    /// The disk failed.
    Disk,
    /// No lane is left, and not everything was acknowledged.
    Link,
    /// The other end said what it may not say.
    Peer(PeerKind),
    /// The other end said that it failed, with this code.
    Aborted(u8),
    /// The transfer is refused.
    Refused(RefusedKind),
    /// Memory ran out.
    NoMemory,
}

impl EndAnswer {
    /// Whether the end has failed.
    pub fn is_failure(&self) -> bool
        ensures { result ≡ is_failure self.now }
    {
        !matches!(self, EndAnswer::Going | EndAnswer::Done | EndAnswer::Link)
    }

    /// The code by which a failed end tells the other of it: the exit status that the answer leads to,
    /// and where the other end had failed itself the code that it told.
    pub fn code(&self) -> u8
        ensures { result ≡ code_of self.now }
    {
        match self {
            EndAnswer::Going | EndAnswer::Done => 0,
            EndAnswer::Source => 2,
            EndAnswer::Disk => 3,
            EndAnswer::Link => 4,
            EndAnswer::Peer(_) => 5,
            EndAnswer::Aborted(code) => *code,
            EndAnswer::Refused(_) => 7,
            EndAnswer::NoMemory => 10,
        }
    }

    /// Memory ran out: that is the answer, unless there was one.
    pub fn starve(&mut self)
        ensures { self.new ≡ starved self.old }
    {
        if let EndAnswer::Going = self {
            *self = EndAnswer::NoMemory;
        }
    }

    /// The answer behind a step: a failure stays, and else it follows from the lanes. The end is done
    /// where a last word was read and each lane is acknowledged or closed, and over where each has
    /// ended or is closed.
    pub fn judge(&mut self, is_done: bool, is_over: bool)
        ensures { self.new ≡ judged self.old is_done is_over }
    {
        if self.is_failure() {
            return;
        }
        *self = if is_done {
            EndAnswer::Done
        } else if is_over {
            EndAnswer::Link
        } else {
            EndAnswer::Going
        };
    }
}

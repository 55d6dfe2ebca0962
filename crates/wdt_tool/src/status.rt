//! How a run ends.
use wdt_sender_fsm::{PeerKind, RefusedKind};

/// How a run ends.
#[derive(Debug, Drop)]
pub enum Status {
    /// The command did its work.
    Done,
    /// The words are no form of a command.
    Usage,
    /// The source failed.
    SourceFault,
    /// The depot failed.
    DiskFault,
    /// A lane of an end had no connection left, and not everything was acknowledged.
    LinkFault,
    /// An end heard from the other what that may not say.
    Peer(PeerKind),
    /// An end heard that the other failed, with this code.
    Aborted(u8),
    /// The command is refused.
    Refused(RefusedKind),
    /// The lines couldn't be written, and all else went well.
    OutFault,
    /// Memory ran out.
    NoMemory,
}

/// What a run leaves.
#[derive(Debug, Drop)]
pub struct Tooled<D> {
    pub status: Status,
    /// The depot, with the files of the source's tree where a rehearsal is done.
    pub depot: D,
}

impl Status {
    ghost use Rattle.std.specs.Prelude.{◌≡◌};
    ghost use Rattle.wdt_tool.specs.Lines.{last_line, HasFixedLine};
    ghost use Rattle.wdt_tool.specs.Numbers.{code_of};

    /// The number that the process ends with.
    pub fn code(&self) -> u8
        ensures { result ≡ code_of self.now }
    {
        match self {
            Status::Done => 0,
            Status::Usage => 1,
            Status::SourceFault => 2,
            Status::DiskFault => 3,
            Status::LinkFault => 4,
            Status::Peer(_) => 5,
            Status::Aborted(_) => 6,
            Status::Refused(_) => 7,
            Status::OutFault => 8,
            Status::NoMemory => 10,
        }
    }

    /// The last line of a run that ends so. That of a refusal names what is refused, that of a failure that
    /// was heard of its code, and neither is here.
    pub fn line(&self) -> &'static [u8]
        ensures { HasFixedLine self.now → result.now ≡ last_line self.now }
    {
        match self {
            Status::Done => b"ok\n",
            Status::Usage => b"usage\n",
            Status::SourceFault => b"source fault\n",
            Status::DiskFault => b"disk fault\n",
            Status::LinkFault => b"link fault\n",
            Status::Peer(_) => b"peer fault\n",
            Status::Refused(_) | Status::Aborted(_) | Status::OutFault | Status::NoMemory => b"",
        }
    }
}

//! Which row of the table fits.
ghost use Rattle.std.specs.Prelude.{◌≡◌};
ghost use Rattle.wdt_sender_fsm.specs.Rows.{row_of, shown, is_allowed, is_mute, is_mute_at, at_checkpoint, at_chunks, at_command, unexpected, command_of};

use crate::inputs::SendIn;
use crate::states::SendState;
use wdt_codec::{Frame, Mark, Marks};
use wdt_ranges::Have;

/// What a lane's state and an input call for. The rules before the table decide whether it is done.
#[derive(Clone, Copy, Debug)]
pub enum SendRow<'a> {
    /// The lane has ended.
    Over,
    /// Memory ran out; whether a block may stand half written, or nothing at all can be written.
    Starved { mute: bool },
    /// The input doesn't belong to the state.
    Stray,
    /// The receiver has failed, with this code.
    Aborted(u8),
    /// The bytes that were read have no frame: the one at this place is bad.
    BadFrame(u32),
    /// The source failed; whether nothing of the block was written yet.
    SourceLost { unwritten: bool },
    /// A frame that may not come in the state.
    Unexpected { state: u8, command: u8 },
    /// The lane begins.
    Begin,
    /// No connection could be made.
    NotLinked,
    /// The connection stands.
    Linked,
    /// The connection is lost.
    Dropped,
    /// The settings are written.
    SettingsWritten,
    /// The receiver tells how many blocks of a lane it has.
    Greeted(Mark),
    /// The receiver answers the settings by its last word.
    DoneAtOnce,
    /// The receiver tells what it has.
    Listed(&'a Have),
    /// What is sent in all is written.
    SizeWritten,
    /// A block is written.
    BlockWritten,
    /// It is written that nothing more is to come.
    DoneWritten,
    /// The receiver waits for other lanes.
    Waits,
    /// The receiver tells of lanes that it has closed.
    Marked(&'a Marks),
    /// The receiver says its last word.
    Finished,
    /// The receiver's last word is answered.
    Answered,
    /// It is written that the end has failed.
    AbortWritten,
}

impl SendRow<'_> {
    /// Whether a failed end can tell the receiver nothing more after this: there is no connection, it
    /// is lost, a block may stand half written on it, or the receiver has failed itself.
    pub fn is_mute(&self) -> bool
        ensures { result ≡ is_mute (shown self.now) }
    {
        match self {
            SendRow::Over
            | SendRow::Stray
            | SendRow::Aborted(_)
            | SendRow::Begin
            | SendRow::NotLinked
            | SendRow::Linked
            | SendRow::Dropped
            | SendRow::AbortWritten => true,
            SendRow::Starved { mute } => *mute,
            SendRow::SourceLost { unwritten } => !*unwritten,
            _ => false,
        }
    }
}

/// The row that fits, by the state and the input alone.
pub fn row<'a>(state: SendState, input: &'a SendIn) -> SendRow<'a>
    ensures { shown result ≡ row_of state input.now }
{
    match (state, input) {
        (SendState::Ended, _) => SendRow::Over,
        (_, SendIn::Starved) => SendRow::Starved {
            mute: is_mute_at(state),
        },
        (SendState::Connect, SendIn::Start) => SendRow::Begin,
        (SendState::Connect, SendIn::NoLink) => SendRow::NotLinked,
        (SendState::Connect, SendIn::Linked) => SendRow::Linked,
        (SendState::Connect, _) => SendRow::Stray,
        (_, SendIn::Lost) => SendRow::Dropped,
        (SendState::SendSettings, SendIn::Wrote) => SendRow::SettingsWritten,
        (SendState::ReadLocalCheckpoint, SendIn::Got(frame)) => at_checkpoint(frame),
        (SendState::ReadLocalCheckpoint, SendIn::Bad(at)) => SendRow::BadFrame(*at),
        (SendState::ReadFileChunks, SendIn::Got(frame)) => at_chunks(frame),
        (SendState::ReadFileChunks, SendIn::Bad(at)) => SendRow::BadFrame(*at),
        (SendState::SendSize, SendIn::Wrote) => SendRow::SizeWritten,
        (SendState::SendBlocks, SendIn::Wrote) => SendRow::BlockWritten,
        (SendState::SendBlocks, SendIn::SourceLost(unwritten)) => SendRow::SourceLost {
            unwritten: *unwritten,
        },
        (SendState::SendDone, SendIn::Wrote) => SendRow::DoneWritten,
        (SendState::ReadReceiverCmd, SendIn::Got(frame)) => at_command(frame),
        (SendState::ReadReceiverCmd, SendIn::Bad(at)) => SendRow::BadFrame(*at),
        (SendState::AnswerDone, SendIn::Wrote) => SendRow::Answered,
        (SendState::SendAbort, SendIn::Wrote) => SendRow::AbortWritten,
        _ => SendRow::Stray,
    }
}

/// Whether the input belongs to the state.
pub fn allowed(state: SendState, input: &SendIn) -> bool
    ensures { result ≡ is_allowed state input.now }
{
    match (state, input) {
        (_, SendIn::Starved) => true,
        (SendState::Ended, _) => false,
        _ => !matches!(row(state, input), SendRow::Stray),
    }
}

// Whether nothing can be written when memory runs out in a state.
fn is_mute_at(state: SendState) -> bool
    ensures { result ≡ is_mute_at state }
{
    matches!(
        state,
        SendState::Connect | SendState::SendBlocks | SendState::SendAbort | SendState::Ended
    )
}

fn at_checkpoint<'a>(frame: &'a Frame) -> SendRow<'a>
    ensures { shown result ≡ at_checkpoint frame.now }
{
    match frame {
        Frame::Abort(code) => SendRow::Aborted(*code),
        Frame::Greeting(mark) => SendRow::Greeted(*mark),
        Frame::Done => SendRow::DoneAtOnce,
        _ => unexpected(SendState::ReadLocalCheckpoint, frame),
    }
}

fn at_chunks<'a>(frame: &'a Frame) -> SendRow<'a>
    ensures { shown result ≡ at_chunks frame.now }
{
    match frame {
        Frame::Abort(code) => SendRow::Aborted(*code),
        Frame::Chunks(have) => SendRow::Listed(have),
        _ => unexpected(SendState::ReadFileChunks, frame),
    }
}

fn at_command<'a>(frame: &'a Frame) -> SendRow<'a>
    ensures { shown result ≡ at_command frame.now }
{
    match frame {
        Frame::Abort(code) => SendRow::Aborted(*code),
        Frame::Wait => SendRow::Waits,
        Frame::ErrMarks(marks) => SendRow::Marked(marks),
        Frame::Done => SendRow::Finished,
        _ => unexpected(SendState::ReadReceiverCmd, frame),
    }
}

fn unexpected<'a>(state: SendState, frame: &'a Frame) -> SendRow<'a>
    ensures { shown result ≡ unexpected state frame.now }
{
    SendRow::Unexpected {
        state: state.place(),
        command: command_of(frame),
    }
}

/// The first byte of a frame's spelling.
pub fn command_of(frame: &Frame) -> u8
    ensures { result ≡ command_of frame.now }
{
    match frame {
        Frame::Settings(_) => 0x53,
        Frame::Greeting(_) => 0x47,
        Frame::Chunks(_) => 0x43,
        Frame::Size { .. } => 0x5A,
        Frame::Block(_) => 0x44,
        Frame::Done => 0x4C,
        Frame::Wait => 0x57,
        Frame::ErrMarks(_) => 0x45,
        Frame::Abort(_) => 0x41,
    }
}

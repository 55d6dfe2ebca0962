//! Which row of the table fits.
ghost use Rattle.std.specs.Prelude.{◌≡◌, false};
ghost use Rattle.wdt_receiver_fsm.specs.Rows.{row_of, shown, is_allowed, is_mute, is_mute_at, at_settings, at_command, at_answer, unexpected};

use crate::inputs::RecvIn;
use crate::states::{RecvLane, RecvState};
use wdt_codec::{Frame, Settings};
use wdt_sender_fsm::command_of;
use wdt_units::Header;

/// What a lane's state and an input call for. The rules before the table decide whether it is done.
/// A piece of a block is handed in by a call of its own, so it has no row here.
#[derive(Clone, Copy, Debug)]
pub enum RecvRow<'a> {
    /// The lane has ended.
    Over,
    /// Memory ran out; whether nothing at all can be written.
    Starved { mute: bool },
    /// The input doesn't belong to the state.
    Stray,
    /// The sender has failed, with this code.
    Aborted(u8),
    /// The bytes that were read have no frame: the one at this place is bad.
    BadFrame(u32),
    /// A frame that may not come in the state.
    Unexpected { state: u8, command: u8 },
    /// The lane begins.
    Begin,
    /// No connection could be taken.
    NotLinked,
    /// The connection stands.
    Linked,
    /// The connection is lost.
    Dropped,
    /// The sender says what it is.
    Settings(Settings),
    /// It is written how many blocks have landed.
    GreetingWritten,
    /// It is written what the destination had.
    ChunksWritten,
    /// The sender tells what is sent in all.
    Size { files: u32, bytes: u64 },
    /// The header of a block has come.
    Block(&'a Header),
    /// The sender says that nothing more is to come.
    Done,
    /// It is written that the sender is to wait.
    WaitWritten,
    /// Something has changed at this end.
    Woken,
    /// It is written which lanes are closed.
    ErrMarksWritten,
    /// The last word is written.
    DoneWritten,
    /// The sender answers the last word.
    Answered,
    /// It is written that the end has failed.
    AbortWritten,
}

impl RecvRow<'_> {
    /// Whether a failed end can tell the sender nothing more after this: there is no connection, it is
    /// lost, or the sender has failed itself.
    pub fn is_mute(&self) -> bool
        ensures { result ≡ is_mute (shown self.now) }
    {
        match self {
            RecvRow::Over
            | RecvRow::Stray
            | RecvRow::Aborted(_)
            | RecvRow::Begin
            | RecvRow::NotLinked
            | RecvRow::Linked
            | RecvRow::Dropped
            | RecvRow::AbortWritten => true,
            RecvRow::Starved { mute } => *mute,
            _ => false,
        }
    }
}

/// The row that fits, by what is kept of the lane and the input alone.
pub fn row<'a>(lane: RecvLane, input: &'a RecvIn) -> RecvRow<'a>
    ensures { shown result ≡ row_of lane.is_sized lane.state input.now }
{
    match (lane.state, input) {
        (RecvState::Ended, _) => RecvRow::Over,
        (_, RecvIn::Starved) => RecvRow::Starved {
            mute: is_mute_at(lane.state),
        },
        (RecvState::Listen, RecvIn::Start) => RecvRow::Begin,
        (RecvState::Listen, RecvIn::NoLink) => RecvRow::NotLinked,
        (RecvState::Listen, RecvIn::Linked) => RecvRow::Linked,
        (RecvState::Listen, _) => RecvRow::Stray,
        (_, RecvIn::Lost) => RecvRow::Dropped,
        (RecvState::ReadSettings, RecvIn::Got(frame)) => at_settings(frame),
        (RecvState::ReadSettings, RecvIn::Bad(at)) => RecvRow::BadFrame(*at),
        (RecvState::SendLocalCheckpoint, RecvIn::Wrote) => RecvRow::GreetingWritten,
        (RecvState::SendFileChunks, RecvIn::Wrote) => RecvRow::ChunksWritten,
        (RecvState::ReadNextCmd, RecvIn::Got(frame)) => at_command(lane.is_sized, frame),
        (RecvState::ReadNextCmd, RecvIn::Bad(at)) => RecvRow::BadFrame(*at),
        (RecvState::SendWait, RecvIn::Wrote) => RecvRow::WaitWritten,
        (RecvState::WaitForFinish, RecvIn::Woken) => RecvRow::Woken,
        (RecvState::SendGlobalCheckpoint, RecvIn::Wrote) => RecvRow::ErrMarksWritten,
        (RecvState::SendDone, RecvIn::Wrote) => RecvRow::DoneWritten,
        (RecvState::ReadAck, RecvIn::Got(frame)) => at_answer(frame),
        (RecvState::ReadAck, RecvIn::Bad(at)) => RecvRow::BadFrame(*at),
        (RecvState::SendAbort, RecvIn::Wrote) => RecvRow::AbortWritten,
        _ => RecvRow::Stray,
    }
}

/// Whether the input belongs to the state.
pub fn allowed(state: RecvState, input: &RecvIn) -> bool
    ensures { result ≡ is_allowed state input.now }
{
    match (state, input) {
        (_, RecvIn::Starved) => true,
        (RecvState::Ended, _) => false,
        _ => !matches!(row(opened_at(state), input), RecvRow::Stray),
    }
}

// A lane in this state. Whether an input belongs to a state is the same for all lanes in it.
fn opened_at(state: RecvState) -> RecvLane
    ensures { (result.state ≡ state) × (result.is_sized ≡ false) }
{
    RecvLane {
        state,
        ask: false,
        is_sized: false,
        has_waited: false,
        left: 0,
        conn: 0,
    }
}

// Whether nothing can be written when memory runs out in a state.
fn is_mute_at(state: RecvState) -> bool
    ensures { result ≡ is_mute_at state }
{
    matches!(
        state,
        RecvState::Listen | RecvState::SendAbort | RecvState::Ended
    )
}

fn at_settings<'a>(frame: &'a Frame) -> RecvRow<'a>
    ensures { shown result ≡ at_settings frame.now }
{
    match frame {
        Frame::Abort(code) => RecvRow::Aborted(*code),
        Frame::Settings(settings) => RecvRow::Settings(*settings),
        _ => unexpected(RecvState::ReadSettings, frame),
    }
}

fn at_command<'a>(is_sized: bool, frame: &'a Frame) -> RecvRow<'a>
    ensures { shown result ≡ at_command is_sized frame.now }
{
    match (is_sized, frame) {
        (_, Frame::Abort(code)) => RecvRow::Aborted(*code),
        (false, Frame::Size { files, bytes }) => RecvRow::Size {
            files: *files,
            bytes: *bytes,
        },
        (true, Frame::Block(header)) => RecvRow::Block(header),
        (true, Frame::Done) => RecvRow::Done,
        _ => unexpected(RecvState::ReadNextCmd, frame),
    }
}

fn at_answer<'a>(frame: &'a Frame) -> RecvRow<'a>
    ensures { shown result ≡ at_answer frame.now }
{
    match frame {
        Frame::Abort(code) => RecvRow::Aborted(*code),
        Frame::Done => RecvRow::Answered,
        _ => unexpected(RecvState::ReadAck, frame),
    }
}

fn unexpected<'a>(state: RecvState, frame: &'a Frame) -> RecvRow<'a>
    ensures { shown result ≡ unexpected state frame.now }
{
    RecvRow::Unexpected {
        state: state.place(),
        command: command_of(frame),
    }
}

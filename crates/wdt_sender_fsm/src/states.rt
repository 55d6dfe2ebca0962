//! The states of a sender's lane.
ghost use Rattle.std.specs.Prelude.{◌≡◌};
ghost use Rattle.wdt_sender_fsm.specs.Rows.{place_of};

/// Where a sender's lane stands.
#[derive(Clone, Copy, Debug, PartialEq, Eq)]
pub enum SendState {
    /// It has no connection, and dials.
    Connect,
    /// It writes what the sender says of itself.
    SendSettings,
    /// It reads how many of its blocks the receiver has.
    ReadLocalCheckpoint,
    /// It reads what the destination has of the tree.
    ReadFileChunks,
    /// It writes what is sent in all.
    SendSize,
    /// It writes a block.
    SendBlocks,
    /// It writes that nothing more is to come.
    SendDone,
    /// It reads what the receiver says to that.
    ReadReceiverCmd,
    /// It answers the receiver's last word.
    AnswerDone,
    /// It writes that its end has failed.
    SendAbort,
    /// It is through with everything.
    Ended,
}

/// What an end keeps of a lane beside its history.
#[derive(Clone, Copy, Debug, PartialEq, Eq)]
pub struct SendLane {
    pub state: SendState,
    /// Whether the lane asked on this connection what the destination has.
    pub ask: bool,
}

impl SendState {
    /// The state's place in the list above, from 0.
    pub fn place(self) -> u8
        ensures { result ≡ place_of self }
    {
        match self {
            SendState::Connect => 0,
            SendState::SendSettings => 1,
            SendState::ReadLocalCheckpoint => 2,
            SendState::ReadFileChunks => 3,
            SendState::SendSize => 4,
            SendState::SendBlocks => 5,
            SendState::SendDone => 6,
            SendState::ReadReceiverCmd => 7,
            SendState::AnswerDone => 8,
            SendState::SendAbort => 9,
            SendState::Ended => 10,
        }
    }
}

//! The states of a receiver's lane.
ghost use Rattle.std.specs.Prelude.{◌≡◌};
ghost use Rattle.wdt_receiver_fsm.specs.Rows.{place_of};

/// Where a receiver's lane stands.
#[derive(Clone, Copy, Debug, PartialEq, Eq)]
pub enum RecvState {
    /// It has no connection, and waits for one.
    Listen,
    /// It reads what the sender says of itself.
    ReadSettings,
    /// It writes how many of its blocks have landed.
    SendLocalCheckpoint,
    /// It writes what the destination had of the tree.
    SendFileChunks,
    /// It reads what is sent in all, the next block's header, or that nothing more is to come.
    ReadNextCmd,
    /// It reads the bytes of a block.
    TakeBlock,
    /// It writes that the sender is to wait.
    SendWait,
    /// It waits for other lanes.
    WaitForFinish,
    /// It writes which lanes are closed, and how many of their blocks have landed.
    SendGlobalCheckpoint,
    /// It writes the last word.
    SendDone,
    /// It reads the answer to the last word.
    ReadAck,
    /// It writes that its end has failed.
    SendAbort,
    /// It is through with everything.
    Ended,
}

/// What an end keeps of a lane beside its history.
#[derive(Clone, Copy, Debug, PartialEq, Eq)]
pub struct RecvLane {
    pub state: RecvState,
    /// Whether the sender asked on this connection what the destination has.
    pub ask: bool,
    /// Whether it was read on this connection what is sent in all.
    pub is_sized: bool,
    /// Whether the sender was told to wait since it last said that nothing more is to come.
    pub has_waited: bool,
    /// How many bytes of the begun block are still to come.
    pub left: u32,
    /// The greatest number of a connection that was read on this lane, 0 before any was.
    pub conn: u16,
}

impl RecvState {
    /// The state's place in the list above, from 0.
    pub fn place(self) -> u8
        ensures { result ≡ place_of self }
    {
        match self {
            RecvState::Listen => 0,
            RecvState::ReadSettings => 1,
            RecvState::SendLocalCheckpoint => 2,
            RecvState::SendFileChunks => 3,
            RecvState::ReadNextCmd => 4,
            RecvState::TakeBlock => 5,
            RecvState::SendWait => 6,
            RecvState::WaitForFinish => 7,
            RecvState::SendGlobalCheckpoint => 8,
            RecvState::SendDone => 9,
            RecvState::ReadAck => 10,
            RecvState::SendAbort => 11,
            RecvState::Ended => 12,
        }
    }
}

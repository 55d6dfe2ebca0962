//! A step of a plain receiver, row by row.
use crate::lanes::place_of;
use crate::past;
use crate::plain::{Answer, Plain};
use wdt_codec::{Frame, Mark};
use wdt_receiver_fsm::{RecvEvent, RecvIn, RecvState};
use wdt_sender_fsm::{PeerKind, command_of};
use wdt_units::{Block, Conn, Lane, LaneSet, MAX_CONNECTIONS, MAX_TRIES, NoMemory, PIECE};

/// What a plain lane does next.
#[derive(Clone, Copy, Debug, PartialEq, Eq)]
pub enum PlainAct {
    Accept,
    Read,
    TakePiece(u32),
    Park,
    Stop,
    WriteGreeting(Mark),
    WriteChunks,
    WriteWait,
    WriteErrMarks(LaneSet),
    WriteDone,
    WriteAbort(u8),
}

impl Plain {
    /// A step of a lane with an input.
    pub fn step(&mut self, lane: Lane, put: &RecvIn) -> Result<PlainAct, NoMemory> {
        let state = self.lane(lane).state;
        if state == RecvState::Ended {
            return Ok(PlainAct::Stop);
        }
        if matches!(put, RecvIn::Starved) && self.answer == Answer::Going {
            self.answer = Answer::NoMemory;
        }
        if self.answer.is_failure() {
            return Ok(self.give_up(lane, can_tell(state, put)));
        }
        match (state, put) {
            (_, RecvIn::Starved) => Ok(PlainAct::Stop),
            (RecvState::Listen, RecvIn::Start) => self.listen(lane),
            (RecvState::Listen, RecvIn::NoLink) => {
                self.note(RecvEvent::NoLink(lane))?;
                self.listen(lane)
            }
            (RecvState::Listen, RecvIn::Linked) => self.link(lane),
            (RecvState::Listen, _) => Ok(PlainAct::Stop),
            (_, RecvIn::Lost) => self.lose_connection(lane),
            (_, RecvIn::Wrote) => self.wrote(lane, state),
            (RecvState::WaitForFinish, RecvIn::Woken) => {
                let before = self.history.len();
                self.choose(lane, before)
            }
            (RecvState::ReadSettings, RecvIn::Got(frame)) => self.read_settings(lane, frame),
            (RecvState::ReadNextCmd, RecvIn::Got(frame)) => self.read_command(lane, frame),
            (RecvState::ReadAck, RecvIn::Got(frame)) => self.read_answer(lane, frame),
            (_, RecvIn::Bad(at)) if is_reading(state) => self.fault(
                lane,
                PeerKind::BadFrame { at: *at },
            ),
            _ => Ok(PlainAct::Stop),
        }
    }

    /// A step of a lane that takes a block, with bytes of it.
    pub fn take(&mut self, lane: Lane, bytes: &[u8]) -> Result<PlainAct, NoMemory> {
        if self.answer.is_failure() {
            return Ok(self.give_up(lane, true));
        }
        let Some(block) = past::begun(&self.history, lane) else {
            return Ok(PlainAct::Stop);
        };
        let left = self.lane(lane).left;
        let (file, place) = (self.file_at(block.file), next_place(block, left));
        if !self.disk.write(file, place, bytes)? {
            return Ok(self.lose_disk(lane));
        }
        let left = left.saturating_sub(bytes.len().min(PIECE) as u32);
        self.lanes[place_of(lane)].left = left;
        if left > 0 {
            return Ok(PlainAct::TakePiece(left.min(PIECE as u32)));
        }
        self.note(RecvEvent::Land(lane))?;
        if self.is_batch_full()? && !self.flush()? {
            return Ok(self.lose_disk(lane));
        }
        Ok(self.read_on(lane))
    }

    /// What a lane takes, where it takes any: the file, the place there, and how many bytes.
    pub fn wants(&self, lane: Lane) -> Option<(usize, u64, u32)> {
        let left = self.lane(lane).left;
        match (self.lane(lane).state, past::begun(&self.history, lane)) {
            (RecvState::TakeBlock, Some(block)) => {
                Some((
                    self.file_at(block.file),
                    next_place(block, left),
                    left.min(PIECE as u32),
                ))
            }
            _ => None,
        }
    }

    // ---- failures

    // The lane tells the sender that the end has failed, where it can, and else ends.
    pub(crate) fn give_up(&mut self, lane: Lane, can_tell: bool) -> PlainAct {
        if can_tell {
            self.go(lane, RecvState::SendAbort);
            PlainAct::WriteAbort(self.answer.code())
        } else {
            self.go(lane, RecvState::Ended);
            PlainAct::Stop
        }
    }

    fn fail(&mut self, lane: Lane, answer: Answer) -> PlainAct {
        self.answer = answer;
        self.give_up(lane, true)
    }

    pub(crate) fn lose_disk(&mut self, lane: Lane) -> PlainAct {
        self.fail(lane, Answer::Disk)
    }

    pub(crate) fn fault(&mut self, lane: Lane, kind: PeerKind) -> Result<PlainAct, NoMemory> {
        self.note(RecvEvent::Peer(lane, kind))?;
        Ok(self.fail(lane, Answer::Peer(kind)))
    }

    pub(crate) fn aborted(&mut self, lane: Lane, code: u8) -> Result<PlainAct, NoMemory> {
        self.note(RecvEvent::Abort(lane, code))?;
        self.answer = Answer::Aborted(code);
        Ok(self.give_up(lane, false))
    }

    pub(crate) fn unexpected(&mut self, lane: Lane, frame: &Frame) -> Result<PlainAct, NoMemory> {
        let state = self.lane(lane).state.place();
        let command = command_of(frame);
        self.fault(lane, PeerKind::Unexpected { state, command })
    }

    // ---- connections

    // The lane waits for a connection, or is given up.
    fn listen(&mut self, lane: Lane) -> Result<PlainAct, NoMemory> {
        if past::takes(&self.history, lane) >= MAX_CONNECTIONS as usize
            || past::failed_tries(&self.history, lane) >= MAX_TRIES as usize
        {
            let is_late = past::has_finish(&self.history);
            self.note(if is_late {
                RecvEvent::Quit(lane)
            } else {
                RecvEvent::Close(lane)
            })?;
            self.go(lane, RecvState::Ended);
            return Ok(PlainAct::Stop);
        }
        self.go(lane, RecvState::Listen);
        Ok(PlainAct::Accept)
    }

    fn link(&mut self, lane: Lane) -> Result<PlainAct, NoMemory> {
        let number = past::takes(&self.history, lane).min(MAX_CONNECTIONS as usize) as u16 + 1;
        self.note(RecvEvent::Take(lane, Conn(number)))?;
        self.lanes[place_of(lane)].is_sized = false;
        self.lanes[place_of(lane)].has_waited = false;
        self.go(lane, RecvState::ReadSettings);
        Ok(PlainAct::Read)
    }

    fn lose_connection(&mut self, lane: Lane) -> Result<PlainAct, NoMemory> {
        self.note(RecvEvent::Dropped(lane))?;
        self.lanes[place_of(lane)].is_sized = false;
        self.lanes[place_of(lane)].has_waited = false;
        self.lanes[place_of(lane)].left = 0;
        self.listen(lane)
    }

    // ---- what was written

    fn wrote(&mut self, lane: Lane, state: RecvState) -> Result<PlainAct, NoMemory> {
        match state {
            RecvState::SendLocalCheckpoint if self.lane(lane).ask => {
                self.go(lane, RecvState::SendFileChunks);
                Ok(PlainAct::WriteChunks)
            }
            RecvState::SendLocalCheckpoint
            | RecvState::SendFileChunks
            | RecvState::SendGlobalCheckpoint => { Ok(self.read_on(lane)) }
            RecvState::SendWait => {
                self.lanes[place_of(lane)].has_waited = true;
                let before = self.history.len();
                self.choose(lane, before)
            }
            RecvState::SendDone => {
                self.go(lane, RecvState::ReadAck);
                Ok(PlainAct::Read)
            }
            RecvState::SendAbort => Ok(self.give_up(lane, false)),
            _ => Ok(PlainAct::Stop),
        }
    }

    pub(crate) fn read_on(&mut self, lane: Lane) -> PlainAct {
        self.go(lane, RecvState::ReadNextCmd);
        PlainAct::Read
    }
}

// Whether a lane reads in a state.
fn is_reading(state: RecvState) -> bool {
    matches!(
        state,
        RecvState::ReadSettings | RecvState::ReadNextCmd | RecvState::ReadAck
    )
}

// Whether a lane in this state can still tell the sender, behind this input, that the end has failed.
fn can_tell(state: RecvState, put: &RecvIn) -> bool {
    match (state, put) {
        (RecvState::Listen | RecvState::SendAbort | RecvState::Ended, _) => false,
        (_, RecvIn::Starved) => true,
        (_, RecvIn::Got(Frame::Abort(_))) => false,
        (_, RecvIn::Got(_) | RecvIn::Bad(_)) => is_reading(state),
        (RecvState::WaitForFinish, RecvIn::Woken) => true,
        (RecvState::WaitForFinish | RecvState::TakeBlock, RecvIn::Wrote) => false,
        (_, RecvIn::Wrote) => !is_reading(state),
        _ => false,
    }
}

// Where the next byte of a block goes, of which so many bytes are left.
fn next_place(block: Block, left: u32) -> u64 {
    block
        .offset
        .saturating_add(u64::from(block.length.saturating_sub(left)))
}

/// Whether a position of a file is in one of these blocks.
pub fn is_in(blocks: &[Block], file: u32, position: u64) -> bool {
    blocks.iter().any(|block| {
        block.file == file
            && block.offset <= position
            && position.saturating_sub(block.offset) < u64::from(block.length)
    })
}

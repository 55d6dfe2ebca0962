//! What a plain lane does with what it read.
use crate::lanes::{LANES, place_of};
use crate::plain::Plain;
use crate::rows::{PlainAct, is_in};
use crate::{past, tree};
use wdt_codec::{Frame, Mark, Settings};
use wdt_receiver_fsm::{RecvEvent, RecvState};
use wdt_sender_fsm::PeerKind;
use wdt_units::{Block, Header, Lane, NoMemory, PIECE};

impl Plain {
    pub(crate) fn read_settings(
        &mut self,
        lane: Lane,
        frame: &Frame,
    ) -> Result<PlainAct, NoMemory> {
        match frame {
            Frame::Abort(code) => self.aborted(lane, *code),
            Frame::Settings(settings) => self.greet(lane, *settings),
            _ => self.unexpected(lane, frame),
        }
    }

    pub(crate) fn read_command(&mut self, lane: Lane, frame: &Frame) -> Result<PlainAct, NoMemory> {
        match (self.lane(lane).is_sized, frame) {
            (_, Frame::Abort(code)) => self.aborted(lane, *code),
            (false, Frame::Size { files, bytes }) => self.read_size(lane, *files, *bytes),
            (true, Frame::Block(header)) => self.begin(lane, header),
            (true, Frame::Done) => {
                let before = self.history.len();
                self.note(RecvEvent::Idle(lane))?;
                self.lanes[place_of(lane)].has_waited = false;
                self.choose(lane, before)
            }
            _ => self.unexpected(lane, frame),
        }
    }

    pub(crate) fn read_answer(&mut self, lane: Lane, frame: &Frame) -> Result<PlainAct, NoMemory> {
        match frame {
            Frame::Abort(code) => self.aborted(lane, *code),
            Frame::Done => {
                self.note(RecvEvent::Acked(lane))?;
                self.go(lane, RecvState::Ended);
                Ok(PlainAct::Stop)
            }
            _ => self.unexpected(lane, frame),
        }
    }

    fn greet(&mut self, lane: Lane, settings: Settings) -> Result<PlainAct, NoMemory> {
        let first = past::met(&self.history);
        if let Some(field) = wrong_field(lane, self.lane(lane).conn, first, settings) {
            return self.fault(lane, PeerKind::BadSettings { field });
        }
        if first.is_none() {
            self.note(RecvEvent::Met(lane, settings))?;
        }
        self.lanes[place_of(lane)].ask = settings.ask;
        self.lanes[place_of(lane)].conn = settings.conn.0;
        if past::has_finish(&self.history) {
            self.go(lane, RecvState::SendDone);
            return Ok(PlainAct::WriteDone);
        }
        self.go(lane, RecvState::SendLocalCheckpoint);
        let count = past::count_landed(&self.history, lane);
        Ok(PlainAct::WriteGreeting(Mark { lane, count }))
    }

    fn read_size(
        &mut self,
        lane: Lane,
        told_files: u32,
        told_bytes: u64,
    ) -> Result<PlainAct, NoMemory> {
        match past::sized(&self.history) {
            None => self.note(RecvEvent::Sized(lane, told_files, told_bytes))?,
            Some((files, bytes)) => {
                if files != told_files || bytes != told_bytes {
                    let kind = PeerKind::SizesDiffer {
                        files,
                        bytes,
                        told_files,
                        told_bytes,
                    };
                    return self.fault(lane, kind);
                }
            }
        }
        self.lanes[place_of(lane)].is_sized = true;
        Ok(self.read_on(lane))
    }

    // ---- blocks

    fn begin(&mut self, lane: Lane, header: &Header) -> Result<PlainAct, NoMemory> {
        let Some(file) = tree::file_of(header.path.bytes()) else {
            return Ok(PlainAct::Stop);
        };
        let number = self.known.number_of(file);
        let (size, stamp) = (tree::size_of(file), tree::stamp_of(file));
        if number.is_some() && (size != header.size || stamp != header.stamp) {
            let kind = PeerKind::SizeDiffers {
                size,
                stamp,
                told_size: header.size,
                told_stamp: header.stamp,
            };
            return self.fault(lane, kind);
        }
        let block = Block {
            file: number.unwrap_or(self.known.free()),
            offset: header.offset,
            length: header.length,
        };
        if let Some(offset) = self.first_taken(block)? {
            return self.fault(lane, PeerKind::Overlap { offset });
        }
        if number.is_none() {
            if !self.disk.make(file) {
                return Ok(self.lose_disk(lane));
            }
            self.known.put(block.file, file)?;
        }
        self.start(lane, block)
    }

    // The block begins, and an empty one lands.
    fn start(&mut self, lane: Lane, block: Block) -> Result<PlainAct, NoMemory> {
        self.note(RecvEvent::Begin(lane, block))?;
        if block.length == 0 {
            self.note(RecvEvent::Land(lane))?;
            return Ok(self.read_on(lane));
        }
        self.lanes[place_of(lane)].left = block.length;
        self.go(lane, RecvState::TakeBlock);
        Ok(PlainAct::TakePiece(block.length.min(PIECE as u32)))
    }

    // The least position of a block that is there or on its way.
    fn first_taken(&self, block: Block) -> Result<Option<u64>, NoMemory> {
        let taken = self.taken()?;
        if block.length == 0 {
            let is_there = self.opening.names(block.file)
                || taken.iter().any(|other| other.file == block.file);
            return Ok(if is_there { Some(0) } else { None });
        }
        for at in 0..block.length {
            let position = block.offset.saturating_add(u64::from(at));
            if is_in(&taken, block.file, position) {
                return Ok(Some(position));
            }
        }
        Ok(None)
    }
}

// The least field of settings that is wrong, where the lane read a connection of this number before.
fn wrong_field(lane: Lane, conn: u16, first: Option<Settings>, settings: Settings) -> Option<u8> {
    let right = first.unwrap_or(settings);
    if settings.version != 1 {
        Some(1)
    } else if settings.session != right.session {
        Some(2)
    } else if settings.lane != lane {
        Some(3)
    } else if settings.lanes != LANES {
        Some(4)
    } else if settings.conn.0 <= conn {
        Some(5)
    } else if settings.block != right.block {
        Some(6)
    } else {
        None
    }
}

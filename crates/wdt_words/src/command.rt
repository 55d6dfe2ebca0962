//! The commands.

/// A command that waits for nobody, with its options.
#[derive(Clone, Copy, Debug, PartialEq, Eq)]
pub enum Command {
    /// `rehearse SRC` copies the files of a folder into memory.
    Rehearse,
    /// `plan SRC DST` lists what is still to be sent, in blocks of at most so many bytes, 1 to
    /// 67,108,864.
    Plan { block: u32 },
    /// `log DST` prints what the log of a destination says.
    Log,
}

/// A command that copies over connections, with its options.
#[derive(Clone, Copy, Debug, PartialEq, Eq)]
pub enum Transfer {
    /// `copy SRC DST` copies the files of a folder into another.
    Copy {
        /// How many lanes, 1 to 16.
        lanes: u8,
        /// The most bytes of a block, 1 to 67,108,864.
        block: u32,
        /// From so many bytes on, 1 to 1,073,741,824, what has landed is logged.
        batch: u32,
    },
    /// `send SRC HOST PORT` sends the files of a folder to the receiver that listens there. Each lane has
    /// a port of its own: the port that is given and the lane's number.
    Send {
        /// The port of the first lane, 1 to 65,520.
        port: u16,
        /// How many lanes, 1 to 16.
        lanes: u8,
        /// The most bytes of a block, 1 to 67,108,864.
        block: u32,
        /// The number of the session, 1 to 2^63 - 1.
        session: u64,
    },
    /// `recv DST HOST PORT` listens there, on as many ports, and copies what is sent into a folder.
    Recv {
        /// The port of the first lane, 1 to 65,520.
        port: u16,
        /// How many lanes, 1 to 16.
        lanes: u8,
        /// From so many bytes on, 1 to 1,073,741,824, what has landed is logged.
        batch: u32,
    },
}

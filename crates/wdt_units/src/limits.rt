//! The limits of a transfer. Contracts and definitions name these, and no number in their place.

/// How many lanes an end has, at most.
pub const MAX_LANES: u8 = 16;

/// The greatest length of a path, in bytes.
pub const MAX_PATH: usize = 1024;

/// The greatest number of files in a tree.
pub const MAX_FILES: u32 = 262_144;

/// The greatest size of a file, in bytes: 2^40.
pub const MAX_FILE_SIZE: u64 = 1_099_511_627_776;

/// The greatest size of all files together, in bytes: 2^50.
pub const MAX_TOTAL: u64 = 1_125_899_906_842_624;

/// Where a write to a file ends at most, in bytes from its start: 2^41.
pub const MAX_WRITE_END: u64 = 2_199_023_255_552;

/// The greatest number of spans that a destination, or its log, tells of all its files together.
pub const MAX_SPANS: u32 = 1_310_720;

/// The greatest number of blocks in a plan.
pub const MAX_BLOCKS: u32 = 1_048_576;

/// The greatest length of a block, in bytes: 64 MiB. The least is 1.
pub const MAX_BLOCK: u32 = 67_108_864;

/// How many bytes a whole block has where nothing else is said: 16 MiB.
pub const DEFAULT_BLOCK: u32 = 16_777_216;

/// How many bytes a receiver leaves unsynced at most, 1 GiB. The least such limit is 1.
pub const MAX_BATCH: u32 = 1_073_741_824;

/// How many bytes a receiver leaves unsynced where nothing else is said: 8 MiB.
pub const DEFAULT_BATCH: u32 = 8_388_608;

/// How many bytes are read, moved or written at once, at most.
pub const PIECE: usize = 65_536;

/// How often a lane connects in one session, at most.
pub const MAX_CONNECTIONS: u16 = 8;

/// How often a lane fails to connect in one session before it gives up, at each end.
pub const MAX_TRIES: u16 = 8;

/// The greatest number of marks in one frame: one for each lane but that which reads it.
pub const MAX_MARKS: usize = 15;

/// How many files a depot holds open for its callers at once, at most.
pub const MAX_SPOTS: usize = 32;

//! What a run counts.

/// What a run over one connection and in one session counts.
#[derive(Clone, Copy, Debug, PartialEq, Eq)]
pub struct Report {
    pub files: u32,
    pub blocks: u64,
    pub bytes: u64,
}

// What a changing call leaves behind, by which earlier moments are told.
use crate::memory::place::Overwrite;
use wdt_units::Name;

// Places are numbers of the list of files.
#[derive(Debug, Drop)]
pub enum Taken {
    // A write to a place.
    Wrote(usize),
    // A sync of a place, and what was pending there.
    Synced(usize, Vec<Overwrite>),
    // A file made at a path in a new place, and the place that the path had.
    Made(Name, Option<usize>),
    // A file taken from one path to another, its place, and the place that the other path had.
    Placed(Name, Name, usize, Option<usize>),
    // A place reopened, its bytes from a position on, and what was pending there.
    Reopened(usize, usize, Vec<u8>, Vec<Overwrite>),
}

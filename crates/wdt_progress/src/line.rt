//! The line that tells how far a transfer is.
use std::fmt;

/// So many files, and so many bytes of files.
#[derive(Clone, Copy, Debug)]
pub struct Come {
    pub files: u64,
    pub bytes: u64,
}

/// What is counted: the first word of the line.
#[derive(Clone, Copy, Debug)]
pub enum Deed {
    /// Files and bytes that stand at the destination of a copy.
    Copied,
    /// Files and bytes that a sender has read of its source.
    Sent,
    /// Files and bytes that a receiver has written since it began.
    Received,
}

/// How far a transfer is. It is shown as `copied 12.3 of 41.0 MiB, 30%, 4.1 MiB/s, 0:07 left, 3 of 12 files`,
/// or where the whole isn't known as `received 12.3 MiB, 4.1 MiB/s, 3 files`.
#[derive(Clone, Copy, Debug)]
pub struct Line {
    pub deed: Deed,
    /// What has come. Of what came twice no more is shown than there is.
    pub done: Come,
    /// What is to come in the end, or None where that isn't known.
    pub all: Option<Come>,
    /// How many bytes come in a second, or None where that can't be told yet.
    pub rate: Option<u64>,
}

impl fmt::Display for Line {
    fn fmt<W: fmt::Write>(&self, f: &mut fmt::Formatter<W>) -> fmt::Result {
        let Line {
            deed,
            done,
            all,
            rate,
        } = self;
        match all {
            Some(all) => write_of_all(f, *deed, *done, *all, *rate),
            None => write_done(f, *deed, *done, *rate),
        }
    }
}

// Writes how far a transfer is whose whole is known.
fn write_of_all<W: fmt::Write>(
    f: &mut fmt::Formatter<W>,
    deed: Deed,
    done: Come,
    all: Come,
    rate: Option<u64>,
) -> fmt::Result {
    let bytes = done.bytes.min(all.bytes);
    let (come, whole) = (Mebibytes(bytes), Mebibytes(all.bytes));
    write!(
        f,
        "{deed} {come} of {whole} MiB, {}%, ",
        percent(bytes, all.bytes)
    )?;
    if let Some(rate) = rate {
        write_rate(f, rate)?;
        if let Some(seconds) = (all.bytes - bytes).checked_div(rate) {
            let left = Clock(seconds);
            write!(f, "{left} left, ")?;
        }
    }
    write!(f, "{} of {} files", done.files.min(all.files), all.files)
}

// Writes how far a transfer is whose whole isn't known.
fn write_done<W: fmt::Write>(
    f: &mut fmt::Formatter<W>,
    deed: Deed,
    done: Come,
    rate: Option<u64>,
) -> fmt::Result {
    let come = Mebibytes(done.bytes);
    write!(f, "{deed} {come} MiB, ")?;
    if let Some(rate) = rate {
        write_rate(f, rate)?;
    }
    write!(
        f,
        "{} {}",
        done.files,
        if done.files == 1 { "file" } else { "files" }
    )
}

fn write_rate<W: fmt::Write>(f: &mut fmt::Formatter<W>, rate: u64) -> fmt::Result {
    let speed = Mebibytes(rate);
    write!(f, "{speed} MiB/s, ")
}

impl fmt::Display for Deed {
    fn fmt<W: fmt::Write>(&self, f: &mut fmt::Formatter<W>) -> fmt::Result {
        f.write_str(match self {
            Deed::Copied => "copied",
            Deed::Sent => "sent",
            Deed::Received => "received",
        })
    }
}

// How many of a hundred parts are done, rounded down. Where there is nothing to do all is done.
fn percent(done: u64, all: u64) -> u64 {
    let hundred = u128::from(done.min(all)) * 100;
    match hundred.checked_div(u128::from(all)) {
        Some(parts) => parts as u64,
        None => 100,
    }
}

// A number of bytes, as mebibytes with one digit behind the point.
#[derive(Clone, Copy)]
struct Mebibytes(u64);

impl fmt::Display for Mebibytes {
    fn fmt<W: fmt::Write>(&self, f: &mut fmt::Formatter<W>) -> fmt::Result {
        let tenths = u128::from(self.0) * 10 / 1_048_576;
        write!(f, "{}.{}", tenths / 10, tenths % 10)
    }
}

// A number of seconds, as minutes and seconds, or hours, minutes and seconds.
#[derive(Clone, Copy)]
struct Clock(u64);

impl fmt::Display for Clock {
    fn fmt<W: fmt::Write>(&self, f: &mut fmt::Formatter<W>) -> fmt::Result {
        let (minutes, seconds) = (self.0 / 60, self.0 % 60);
        if minutes < 60 {
            return write!(f, "{minutes}:{seconds:02}");
        }
        write!(f, "{}:{:02}:{seconds:02}", minutes / 60, minutes % 60)
    }
}

//! What has come so far, and when the line was drawn.
use crate::line::{Come, Deed, Line};
use std::rt::Clock;
use std::sync::OnceLock;
use std::sync::atomic::AtomicU64;
use std::sync::atomic::Ordering::SeqCst;
use std::time::Instant;

// The line is drawn anew behind so many milliseconds: five times a second.
const PAUSE: u64 = 200;

/// Draws how far a transfer is, on standard error. Many threads may count into one.
#[derive(Drop)]
pub struct Progress<R: Clock + Eprint + Drop> {
    rt: R,
    deed: Deed,
    // Empty where the whole isn't known.
    all: OnceLock<Come>,
    // How many bytes had come before this run.
    had: u64,
    files: AtomicU64,
    bytes: AtomicU64,
    // When something came for the first time.
    begun: OnceLock<Instant>,
    // From how many milliseconds on, since then, the line may be drawn.
    next: AtomicU64,
}

impl<R: Clock + Eprint + Drop> Progress<R> {
    /// A transfer that begins, of which `had` has come before.
    pub fn of(rt: R, deed: Deed, had: Come) -> Progress<R> {
        Progress {
            rt,
            deed,
            all: OnceLock::new(),
            had: had.bytes,
            files: AtomicU64::new(had.files),
            bytes: AtomicU64::new(had.bytes),
            begun: OnceLock::new(),
            next: AtomicU64::new(0),
        }
    }

    /// So much is to come in the end, of which so many files have begun. What was known before stays.
    pub fn expect(&self, all: Come, begun: u64) {
        if self.all.try_set(all).is_ok() {
            self.files.fetch_add(begun, SeqCst);
        }
    }

    /// So many files more have begun, and so many bytes more have come.
    pub fn count(&self, more: Come) {
        self.files.fetch_add(more.files, SeqCst);
        self.bytes.fetch_add(more.bytes, SeqCst);
        self.draw();
    }

    // Draws the line anew, where the last one has stood long enough. What can't be written is left out.
    fn draw(&self) {
        let Ok(now) = Instant::now(&self.rt) else {
            return;
        };
        let spent = self.spent(now);
        if self.is_due(spent) {
            let line = self.line(spent);
            let _ = eprint!(self.rt; "\r{line}\x1b[K");
        }
    }

    // How many milliseconds have gone since something came for the first time.
    fn spent(&self, now: Instant) -> u64 {
        match self.begun.get() {
            Some(begun) => u64::try_from(now.duration_since(*begun).as_millis()).unwrap_or(
                u64::MAX,
            ),
            None => {
                let _ = self.begun.try_set(now);
                0
            }
        }
    }

    // Whether the line is to be drawn, by the one thread that is told so.
    fn is_due(&self, spent: u64) -> bool {
        let next = self.next.load(SeqCst);
        let later = spent.saturating_add(PAUSE);
        spent >= next
            && self
                .next
                .compare_exchange(next, later, SeqCst, SeqCst)
                .is_ok()
    }

    /// How far the transfer is, so many milliseconds after something came for the first time.
    pub fn line(&self, spent: u64) -> Line {
        let done = Come {
            files: self.files.load(SeqCst),
            bytes: self.bytes.load(SeqCst),
        };
        Line {
            deed: self.deed,
            done,
            all: self.all.get().copied(),
            rate: rate_of(done.bytes.saturating_sub(self.had), spent),
        }
    }
}

// How many bytes come in a second, where so many came in so many milliseconds.
fn rate_of(come: u64, spent: u64) -> Option<u64> {
    let rate = (u128::from(come) * 1000).checked_div(u128::from(spent))?;
    u64::try_from(rate).ok()
}

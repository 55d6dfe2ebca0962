//! A thread for each seat.
ghost use Rattle.std.specs.Prelude.{◌<◌, ℕ, length, All, slice_index_or};

use std::sync::Wait;
use std::thread;
use std::thread::Threads;

/// What a thread does with its seat. A closure that is handed to threads may not call through a bound
/// whose trait has a parameter; behind this trait, which has none, it may.
pub trait Job {
    /// What one thread is handed, and hands back.
    type Seat;

    /// When it may run.
    ghost may: { Self → Self.Seat → Type 0 };

    /// What it makes of its seat.
    ghost did: { Self → Self.Seat → Self.Seat → Type 0 };

    /// Runs on a seat. It may wait for the others.
    fn run<R: Wait>(&self, rt: &R, seat: &mut Self::Seat)
        requires { may self.now seat.old }
        ensures { did self.now seat.old seat.new };
}

/// Runs a job in a thread for each seat, side by side. It takes no memory, and loses no seat. Where the
/// system gives no thread, seats are served one after the other.
pub fn run_all<R: Threads + Wait + Sync, J: Job + Sync>(rt: &R, job: &J, seats: &mut [J::Seat])
where
    J::Seat: Send,
    requires { All (J.may job.now) seats.old }
    ensures { (k : ℕ) (d : J.Seat) → k < length seats.old → J.did job.now (slice_index_or seats.old k d) (slice_index_or seats.new k d) }
{
    if seats.is_empty() {
        return;
    }
    let threads = seats.len();
    thread::for_each_mut(
        rt,
        seats,
        threads,
        &|_, seat: &mut J::Seat|
            requires { J.may job.now seat.now }
            ensures { J.did job.entry.now seat.entry.now seat.exit.now }
        { job.run(rt, seat) },
    );
}

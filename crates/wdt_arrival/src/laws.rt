//! Laws of a finished receiver. The functions do nothing: their contracts are the laws.
ghost use Rattle.std.specs.Prelude.{◌≡◌, true, List, Some, IfSome};
ghost use Rattle.wdt_units.specs.Tree.{File};
ghost use Rattle.wdt_depot.specs.Disk.{Disk, seen_of};
ghost use Rattle.wdt_logfmt.specs.Marks.{bytes_in, files_in};
ghost use Rattle.wdt_logfmt.specs.Spelling.{written_version};
ghost use Rattle.wdt_good.specs.Good.{GoodFiles};
ghost use Rattle.wdt_good.specs.LogState.{LogOf};
ghost use Rattle.wdt_good.specs.Logged.{AllFit};
ghost use Rattle.wdt_receiver_fsm.specs.Batched.{IsBatched};
ghost use Rattle.wdt_receiver_fsm.specs.Logging.{log_after};
ghost use Rattle.wdt_receiver_fsm.specs.PlainReceiver.{PlainReceiver, has_finish, marks_at};
ghost use Rattle.wdt_receiver_fsm.specs.Receiver.{IsReceiver};
ghost use Rattle.wdt_receiver_fsm.specs.ReceiverHistory.{end_of};
ghost use Rattle.wdt_arrival.specs.Arrival.{HasArrived, totals_of};

/// Behind a finish the totals were told, and as many files are named and as many bytes are there.
pub fn a_finish_is_whole()
    ensures { (r : PlainReceiver) → IsReceiver r → has_finish r ≡ true → (end_of r.history).sized ≡ Some (files_in (marks_at r), bytes_in (marks_at r)) }
{}

/// Behind a finish, where the totals that were told are a tree's, the log is at rest, each image is good for
/// the tree, and what landed is the tree's as it is read: the tree has arrived.
pub fn a_finished_tree_has_arrived()
    ensures { (T : List File) (r : PlainReceiver) (d : Disk) → IsReceiver r → IsBatched r → has_finish r ≡ true → IfSome (end_of r.history).sized (λ sized. sized ≡ totals_of T)
        → LogOf written_version r.log.files r.log.end d → AllFit T d → GoodFiles T (seen_of d) (log_after r).files → HasArrived T d }
{}

//! What a transfer is handed, and what it leaves.
use wdt_receiver_fsm::RecvEvent;
use wdt_sender_fsm::SendEvent;
use wdt_tool::Status;

/// What a transfer is handed, and hands back.
pub struct Parts<S, D, C, A> {
    pub sources: Vec<S>,
    pub depot: D,
    pub dialers: Vec<C>,
    pub acceptors: Vec<A>,
}

/// What a transfer over connections leaves.
#[derive(Drop)]
pub struct Carried<S, D, C, A> {
    pub status: Status,
    /// All that happened at the sending end, in order.
    pub sender: Vec<SendEvent>,
    /// All that happened at the receiving end, in order.
    pub receiver: Vec<RecvEvent>,
    pub sources: Vec<S>,
    /// The depot, or None where there was no memory to take it from the receiving end. A send hands it back
    /// as it was.
    pub depot: Option<D>,
    pub dialers: Vec<C>,
    pub acceptors: Vec<A>,
}

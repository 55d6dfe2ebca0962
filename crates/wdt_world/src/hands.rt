//! What the lanes hold.
use wdt_receiver_fsm::{RecvAct, RecvIn};
use wdt_sender_fsm::{SendAct, SendIn};

/// What a lane of the sender holds.
#[derive(Debug, Drop)]
pub(crate) enum SendHand {
    /// An act that is to be performed.
    Does(SendAct),
    /// An input that is to be handed in.
    Has(SendIn),
}

/// What a lane of the receiver holds.
#[derive(Debug, Drop)]
pub(crate) enum RecvHand {
    /// An act that is to be performed.
    Does(RecvAct),
    /// An input that is to be handed in.
    Has(RecvIn),
    /// Bytes of a block that are to be handed in.
    Took(Vec<u8>),
}

//! The outboxes of an owner of states: the messages to be sent, for each receiver.
#![tactic(auto)]

mod queues;

pub use queues::Outboxes;

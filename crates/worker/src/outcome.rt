//! Results of receiving a message and of a turn.

/// The result of receiving from a link.
#[derive(Clone, Copy, Debug, PartialEq, Eq)]
pub enum Received {
    /// The owner took the oldest message.
    Taken,
    /// The link was not known to hold a message, and none was found.
    Nothing,
    /// The oldest message is not for this owner, and the worker has set it aside.
    SetAside,
}

/// The result of a turn.
#[derive(Clone, Copy, Debug, PartialEq, Eq)]
pub enum Turn {
    /// The round continues.
    Next,
    /// No units of work are left, or the round was ended.
    Last,
    /// A message that is not for this owner was set aside. The worker takes no further turns.
    Misfit,
}

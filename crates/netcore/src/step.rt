//! The steps of a world.

ghost use Rattle.std.specs.Prelude.{◌≡◌};

/// A step of a world. A step of a worker that does not exist changes nothing.
#[derive(Clone, Copy, Debug, PartialEq, Eq)]
pub enum WorldStep {
    /// The worker expands its next node below the bound that it has read last.
    Expand(usize),
    /// The first worker's oldest message for the second goes underway.
    Send(usize, usize),
    /// The worker takes the message of that number among those underway to it in the order of sending, and is then not
    /// at rest.
    Deliver(usize, usize),
    /// The bound becomes the lesser of itself and the least cost at which the worker has taken a goal state.
    Offer(usize),
    /// The worker reads the current bound.
    Look(usize),
    /// The worker starts to rest if it has no node to expand and no message to send.
    Rest(usize),
}

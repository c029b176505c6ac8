//! Reasons why a worker stops before the round is over.

use crate::gate::Stop;
use owner::OwnerFault;

/// The reason why a worker stopped taking turns while units of work were left.
#[derive(Clone, Copy, Debug, PartialEq, Eq)]
pub enum TurnFault {
    /// Its owner refused to expand the next node, or failed to allocate memory for a message.
    Owner(OwnerFault),
    /// The gate ended the search before this turn, counted from 1 in the round.
    Gate(u64, Stop),
}

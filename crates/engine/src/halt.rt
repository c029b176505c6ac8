//! Reasons why a round ends while units of work are left.

ghost use Rattle.std.specs.Prelude.{◌≡◌};
ghost use Rattle.engine.specs.Steps.{halt_of};

use crate::fault::EngineFault;
use crate::searched::Cause;
use engine_round::{Stop, TurnFault};

/// The reason why a round ended while units of work were left, if that does not make the search fail.
#[derive(Clone, Copy, Debug)]
pub(crate) enum Halt {
    /// The owner of this worker refused to expand a node.
    Refused(usize),
    /// The gate ended the search, for this reason.
    ByGate(Cause),
}

/// Returns what a round's fault means for the search. Fails with `Gate` if the gate makes the search fail.
pub(crate) fn halt_of(fault: Option<(usize, TurnFault)>) -> Result<Option<Halt>, EngineFault>
    ensures { result ≡ halt_of fault }
{
    match fault {
        None => Ok(None),
        Some((worker, TurnFault::Owner(_))) => Ok(Some(Halt::Refused(worker))),
        Some((worker, TurnFault::Gate(turn, Stop::Fail))) => Err(EngineFault::Gate(worker, turn)),
        Some((_, TurnFault::Gate(_, Stop::Limit))) => Ok(Some(Halt::ByGate(Cause::Gate))),
        Some((_, TurnFault::Gate(_, Stop::Stage))) => Ok(Some(Halt::ByGate(Cause::Stage))),
    }
}

//! The fault of a search as the program's.

ghost use Rattle.std.specs.Prelude.{◌≡◌};
ghost use Rattle.optplan_solve.specs.Outputs.{fault_of_search};

use optplan_replies::Fault;
use optplan_solver::SearchFault;

/// Converts the fault of a search into the program's.
pub(crate) fn search_fault(fault: SearchFault) -> Fault
    ensures { result ≡ fault_of_search fault }
{
    match fault {
        SearchFault::OutOfMemory => Fault::OutOfMemory,
        SearchFault::TotalTooLarge => Fault::TotalTooLarge,
    }
}

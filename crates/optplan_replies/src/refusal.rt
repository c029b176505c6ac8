//! Faults with their explanations.

ghost use Rattle.std.specs.Prelude.{◌≡◌, None};

use crate::fault::Fault;

/// A fault, with the explanation that is printed after its line, if there is one.
#[derive(Debug, Drop)]
pub struct Refusal {
    pub fault: Fault,
    /// Lines, each with its line feed.
    pub explanation: Option<String>,
}

impl From<Fault> for Refusal {
    ghost from_gives = { λ fault e. (e.fault ≡ fault) × (e.explanation ≡ None) };

    fn from(fault: Fault) -> Refusal {
        Refusal {
            fault,
            explanation: None,
        }
    }
}

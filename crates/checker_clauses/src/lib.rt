//! The clauses that a certificate for a finite-domain task must satisfy, and the law that they imply its bound.
#![tactic(auto)]

mod laws;
mod violation;

pub use laws::{
    clauses_imply_bound, one_first_violation, without_classes, worked_road, worked_road_with_lamp,
};
pub use violation::Violation;

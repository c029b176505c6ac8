//! The columns of a search in stages: small tables for a short search, and larger ones for the searches after it. Their
//! abstractions are found by counterexample-guided refinement (Rovner, Sievers and Helmert 2019; Kreft, Büchner,
//! Sievers and Helmert 2023), and their orders are greedy ones for sampled states (Seipp, Keller and Helmert 2020).
#![tactic(auto)]

mod columns;
mod orders;
mod taken_over;

pub use columns::{STAGE_COUNT, stage_columns};
pub use orders::orders_of;

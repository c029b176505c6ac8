//! The theory of optimal search divided among owners of states (hash distributed A*: Kishimoto, Fukunaga and Botea
//! 2013): laws of every family of owners' runs, whatever the order of events between owners. Every state has one owner,
//! which stores it, expands it, and sends each successor to the owner of that successor.
#![tactic(auto)]

mod laws;

pub use laws::{
    bounded_family_is_closed, joined_workers_are_lawful, nothing_left_is_settled,
    parents_lead_back, requests_have_runs, settled_family_has_plan, settled_family_is_closed,
    two_owners_settle, worker_steps, world_is_lawful,
};

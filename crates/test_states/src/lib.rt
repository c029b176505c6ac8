//! Tests of the data of an owner of states, and of what workers share: costs, forms of states, tables, open lists,
//! applicable operators, and the boards and rings between workers.
#![tactic(auto)]

#[cfg(test)]
mod applicable_operators;
#[cfg(test)]
mod boards;
#[cfg(test)]
mod closed_tables;
#[cfg(test)]
mod costs;
#[cfg(test)]
mod forms;
#[cfg(test)]
mod open_lists;
#[cfg(test)]
mod rings;
#[cfg(test)]
mod states_owners;

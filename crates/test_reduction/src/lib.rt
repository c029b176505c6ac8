//! Tests of reductions: what is left out in small tasks, and that random tasks have the same least cost before and
//! after; the order of the retained operators; representatives of operators, and a certificate of a task by them.
#![tactic(auto)]

#[cfg(test)]
mod optimum;
#[cfg(test)]
mod ordering;
#[cfg(test)]
mod random;
#[cfg(test)]
mod reductions;
#[cfg(test)]
mod representatives;
#[cfg(test)]
mod tasks;

//! Multi-threaded searches, whose answers are compared with those of owners in one thread, and a link whose ends are in
//! two threads.
#![tactic(auto)]

#[cfg(test)]
mod gates;
#[cfg(test)]
mod linked_numbers;
#[cfg(test)]
mod searches;

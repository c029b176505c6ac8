//! Multi-threaded searches in stages: each stage answers as one search does, and what a stage knows is not lost.
#![tactic(auto)]

#[cfg(test)]
mod gates;
#[cfg(test)]
mod searches;
#[cfg(test)]
mod texts;

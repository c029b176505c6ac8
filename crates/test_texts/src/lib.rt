//! Tests of texts that are read and written, and of their parts, worked out by hand.
#![tactic(auto)]

#[cfg(test)]
mod plans;
#[cfg(test)]
mod sas_texts;
#[cfg(test)]
mod tasks;
#[cfg(test)]
mod trees;
#[cfg(test)]
mod written_sas;

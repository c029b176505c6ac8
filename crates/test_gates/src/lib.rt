//! Multi-threaded searches whose gates delay workers, or count turns: the answers are those of any other schedule.
#![tactic(auto)]

#[cfg(test)]
mod gates;
#[cfg(test)]
mod searches;
#[cfg(test)]
mod texts;

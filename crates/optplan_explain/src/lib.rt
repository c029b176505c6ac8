//! Explanations of faults: the line and column of a fault, what is wrong there, and that line of the text.
#![tactic(auto)]

mod around;
mod explain;
mod faults;
mod layout;
mod nearest;
mod place;
mod quoting;
mod sentence;
mod shown;
mod source;
mod spot;
mod tokens;
mod wording;

pub use explain::{explanation, refusal_with};
pub use place::{Place, place_of};
pub use source::{Source, Sources};

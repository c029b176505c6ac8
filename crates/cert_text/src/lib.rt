//! The texts of certificates of a lower bound on the cost of every plan, in versions 1 to 3: version 2 may have tables
//! of domain abstractions too, and version 3 has classes of the values of the task, which reduce it.
//!
//! A text consists of lines of words separated by single blanks, and each value has exactly one text: numbers are
//! decimal without leading zeros, and every line ends with a line feed. A text is read exactly if it spells a
//! certificate. Otherwise reading fails with the first fault of the text, its kind and line.
#![tactic(auto)]

mod fault;
mod forms;
mod laws;
mod lines;
mod numbers;
mod parts;
mod reading;
mod words;

pub use fault::CertFault;
pub use laws::{no_front, one_certificate, spelled_or_not, worked_class_lines, worked_classes};
pub use reading::{MAX_LENGTH, read_cert};

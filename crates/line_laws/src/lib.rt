//! Laws of the readers that read a text line by line, of finite-domain tasks and of certificates: what a text spells is
//! lawful, and the first fault of a text depends only on its first lines.
#![tactic(auto)]

pub mod cert;
pub mod sas;

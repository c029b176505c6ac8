//! Writes the text of a certificate. The crate `cert_text` says which text a certificate has, and reads it.
#![tactic(auto)]

mod writing;

pub use writing::write_cert;

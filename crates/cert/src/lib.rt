//! Certificates of searches: closed lists sorted by state, and the law that a finished closed list with
//! cost-partitioned columns makes a certificate that holds.
#![tactic(auto)]

mod laws;
mod making;
mod sorting;
mod states;
mod tables;

pub use cert_text::{CertFault, MAX_LENGTH, read_cert};
pub use cert_writer::write_cert;
pub use laws::{
    finished_list_has_text, finished_list_is_held, order_does_not_matter, sorted_once_rises,
};
pub use making::cert_of;
pub use sorting::sorted_list;

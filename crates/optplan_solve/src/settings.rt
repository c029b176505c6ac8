//! The settings of a solve command, apart from its task.

use optplan_solver::Options;

/// External limits of a multi-threaded search: it ends as at a limit, before the next turn of each owner.
#[derive(Clone, Copy, Debug, PartialEq, Eq)]
pub struct Watch {
    /// The seconds after which the search ends, if any. They count from when the files are read, but only the search
    /// can be ended.
    pub seconds: Option<u64>,
    /// The memory in MiB that the states and the messages of all owners together may take, if there is a limit. Each
    /// owner has the same share of it.
    pub mebibytes: Option<u64>,
}

/// The schedule of the owners' steps.
#[derive(Clone, Copy, Debug, PartialEq, Eq)]
pub enum Schedule {
    /// The owners search in threads, one each.
    Threads(Watch),
    /// The owners' steps are random, from this seed, one at a time.
    Drawn(u64),
}

/// The request of a solve command, apart from its input files.
#[derive(Drop)]
pub struct Settings<'a> {
    /// The number of owners, the size of tables, the limits of the search, and whether a certificate is made.
    pub options: Options,
    /// The schedule of the owners' steps.
    pub schedule: Schedule,
    /// Whether the progress of the search is reported on standard error.
    pub progress: bool,
    /// Whether a fault of the texts is explained on standard error.
    pub explains: bool,
    /// The name of the file to which the plan is written, if requested.
    pub plan: Option<&'a str>,
    /// The name of the file to which the certificate is written, if requested; it is written only if the options
    /// request a certificate.
    pub cert: Option<&'a str>,
}

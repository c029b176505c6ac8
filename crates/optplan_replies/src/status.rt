//! Exit statuses.

ghost use Rattle.std.specs.Prelude.{◌≡◌};
ghost use Rattle.optplan_replies.specs.Statuses.{status_code};

/// The result of a command.
#[derive(Clone, Copy, Debug, PartialEq, Eq)]
pub enum Status {
    /// The request was completed: a plan is valid, a certificate accepted, a task translated or solved, or help or the
    /// version was printed.
    Done,
    /// A text or a task is refused.
    Refused,
    /// The arguments are not a command.
    Misused,
    /// The plan is not valid, or the certificate is rejected.
    Rejected,
    /// There is no plan.
    Unsolvable,
    /// A search was stopped before it found a cheapest plan or that there is none.
    Limited,
    /// Allocation failed.
    OutOfMemory,
    /// The device failed to read or to write.
    DeviceFailed,
}

impl Status {
    /// Returns the number with which the program exits: the variant's index, from 0 for `Done` to 7 for `DeviceFailed`.
    pub fn code(self) -> u8
        ensures { result ≡ status_code self }
    {
        match self {
            Status::Done => 0,
            Status::Refused => 1,
            Status::Misused => 2,
            Status::Rejected => 3,
            Status::Unsolvable => 4,
            Status::Limited => 5,
            Status::OutOfMemory => 6,
            Status::DeviceFailed => 7,
        }
    }
}

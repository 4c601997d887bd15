//! How a call ended.
/// How a call ended.
#[derive(Clone, Copy, Debug, PartialEq, Eq)]
pub enum Status {
    /// The answer was written; the lifeguard has no report.
    Clean,
    /// The answer was written; the lifeguard has a report.
    Reports,
    /// The words are no command.
    Usage,
    /// The input is no job.
    BadJob,
    /// The input is no well-formed log.
    BadLog,
    /// Two conflicting records of the log are not ordered.
    Unordered,
    /// A read of the input failed.
    ReadFault,
    /// A write of the answer failed.
    WriteFault,
    /// No memory was left.
    NoMemory,
    /// The input has more bytes than the command takes.
    TooLong,
}

impl Status {
    ghost use Rattle.std.specs.Prelude.{◌≡◌};
    ghost use Rattle.paralog_top.specs.Statuses.{status_code};

    /// The number that the process ends with.
    pub fn code(self) -> u8
        ensures { result ≡ status_code self }
    {
        match self {
            Status::Clean => 0,
            Status::Reports => 1,
            Status::Usage => 2,
            Status::BadJob => 3,
            Status::BadLog => 4,
            Status::Unordered => 5,
            Status::ReadFault => 6,
            Status::WriteFault => 7,
            Status::NoMemory => 8,
            Status::TooLong => 9,
        }
    }
}

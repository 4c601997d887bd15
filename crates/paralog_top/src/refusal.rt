//! Why a command has no answer.

use guest_asm::{JobFault, JobRefused};
use log_text::{LogEnd, LogFault};
use pl_base::ReadEnd;

/// Why a command has no answer to its input.
#[derive(Clone, Copy, Debug, PartialEq, Eq)]
pub enum Refusal {
    /// The input is no job: the lowest line at which a pass finds a fault, and its cause.
    BadJob(JobFault),
    /// The input is no well-formed log: the first line that breaks a rule, and the rule.
    BadLog(LogFault),
    /// A read of the input failed.
    ReadFault,
    /// The input has more bytes than the command takes.
    TooLong,
    /// No memory was left.
    NoMemory,
}

impl Refusal {
    ghost use Rattle.std.specs.Prelude.{◌≡◌};
    ghost use Rattle.paralog_top.specs.inner.Causes.{refusal_of_end, refusal_of_log, refusal_of_job};

    /// Why an input was not read to its end.
    pub fn of_end(end: ReadEnd) -> Refusal
        ensures { result ≡ refusal_of_end end }
    {
        match end {
            ReadEnd::Fault => Refusal::ReadFault,
            ReadEnd::TooLong => Refusal::TooLong,
            ReadEnd::NoMemory => Refusal::NoMemory,
        }
    }

    /// Why no log was read.
    pub fn of_log(end: LogEnd) -> Refusal
        ensures { result ≡ refusal_of_log end }
    {
        match end {
            LogEnd::Fault(fault) => Refusal::BadLog(fault),
            LogEnd::Read(end) => Refusal::of_end(end),
        }
    }

    /// Why no job was read.
    pub fn of_job(refused: JobRefused) -> Refusal
        ensures { result ≡ refusal_of_job refused }
    {
        match refused {
            JobRefused::Fault(fault) => Refusal::BadJob(fault),
            JobRefused::NoMemory => Refusal::NoMemory,
        }
    }
}

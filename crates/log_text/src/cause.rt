//! Why a text is no log.
use pl_base::NoMemory;
use std::alloc::{AllocError, AllocFailed};

/// Why a text is no log: the rules of a line, in the order in which they are tried.
#[derive(Clone, Copy, Debug, PartialEq, Eq)]
pub enum LogCause {
    /// Line 1 is no header that ends with a line feed, or there is no line.
    Header,
    /// A later line is no page line and no record line, or does not end with a line feed.
    Form,
    /// A page line follows a record, starts below the end of the run before it, passes page 4095, or maps more than
    /// 512 pages.
    Page,
    /// More than 2,000,000 records.
    Records,
    /// A hart that the run does not have: the record's, an arc's, or that of the record that a notice names.
    Hart,
    /// An event of a hart that has ended.
    Ended,
    /// A record of a hart that has a notice whose event has not come; at the end, such a notice.
    Open,
    /// An arc of the own hart, arcs whose harts do not rise strictly, or an arc from a record that has not come.
    Arc,
    /// A notice of the own hart or of a record that has come, or a record that a notice names and that is no alert
    /// event.
    Notice,
    /// The address of a load or a store is no multiple of its width.
    Access,
    /// A range of bytes passes the end of memory.
    Range,
    /// Pages past page 4095, mapped pages that are mapped again, more than 512 of them, or unmapped pages that are
    /// unmapped.
    Map,
}

impl LogCause {
    ghost use Rattle.std.specs.Prelude.{◌≡◌};
    ghost use Rattle.log_text.specs.Words.{cause_word};

    /// The word that tells it.
    pub fn word(self) -> &'static str
        ensures { result.now ≡ cause_word self }
    {
        match self {
            LogCause::Header => "header",
            LogCause::Form => "form",
            LogCause::Page => "page",
            LogCause::Records => "records",
            LogCause::Hart => "hart",
            LogCause::Ended => "ended",
            LogCause::Open => "open",
            LogCause::Arc => "arc",
            LogCause::Notice => "notice",
            LogCause::Access => "access",
            LogCause::Range => "range",
            LogCause::Map => "map",
        }
    }
}

/// The first line, counted from 1, that breaks a rule, and the first rule that it breaks. The end counts as the line
/// after the last.
#[derive(Clone, Copy, Debug, PartialEq, Eq)]
pub struct LogFault {
    pub line: u32,
    pub cause: LogCause,
}

/// Why no log was read.
#[derive(Clone, Copy, Debug, PartialEq, Eq)]
pub enum LogRefused {
    Fault(LogFault),
    NoMemory,
}

impl From<NoMemory> for LogRefused {
    ghost use Rattle.std.specs.Prelude.{◌≡◌};
    ghost use Rattle.log_text.specs.declared.cause.LogRefused.TheVariants as refused;

    ghost from_gives = { λ _ e. e ≡ refused.NoMemory };

    fn from(_error: NoMemory) -> LogRefused {
        LogRefused::NoMemory
    }
}

impl From<AllocError> for LogRefused {
    ghost use Rattle.std.specs.Prelude.{◌≡◌};
    ghost use Rattle.log_text.specs.declared.cause.LogRefused.TheVariants as refused;

    ghost from_gives = { λ _ e. e ≡ refused.NoMemory };

    fn from(_error: AllocError) -> LogRefused {
        LogRefused::NoMemory
    }
}

impl<T: Drop> From<AllocFailed<T>> for LogRefused {
    ghost use Rattle.std.specs.Prelude.{◌≡◌};
    ghost use Rattle.log_text.specs.declared.cause.LogRefused.TheVariants as refused;

    ghost from_gives = { λ _ e. e ≡ refused.NoMemory };

    fn from(_error: AllocFailed<T>) -> LogRefused {
        LogRefused::NoMemory
    }
}

impl From<LogFault> for LogRefused {
    ghost use Rattle.std.specs.Prelude.{◌≡◌};
    ghost use Rattle.log_text.specs.declared.cause.LogRefused.TheVariants as refused;

    ghost from_gives = { λ fault e. e ≡ refused.Fault fault };

    fn from(fault: LogFault) -> LogRefused {
        LogRefused::Fault(fault)
    }
}

//! Why a text is no job.
ghost use Rattle.std.specs.Prelude.{◌≡◌};

use pl_base::NoMemory;
use std::alloc::{AllocError, AllocFailed};

/// Why a text is no job, in the order in which the causes are tried.
#[derive(Clone, Copy, Debug, PartialEq, Eq)]
pub enum JobCause {
    /// A line outside the grammar, an unknown name, wrong operands, a number outside -2^31 to 2^32 - 1, or an
    /// immediate or a shift amount of an instruction outside its range.
    Form,
    /// The first statement is not `.harts` with 1 to 8, or `.harts` comes again.
    Harts,
    /// A second `.schedule`, `.steps` or `.entry` of the same hart, or the same label defined again.
    Twice,
    /// A number outside the range of its statement, or a hart that the job does not have.
    Range,
    /// An instruction outside text, `.byte` or `.space` outside data, `.word` or a label before any section.
    Section,
    /// `.word` in data at no multiple of 4.
    Align,
    /// More than 16,384 text words or 262,144 data bytes.
    Full,
    /// At the end: no `.harts`, `.schedule`, `.steps` or text word.
    Missing,
    /// A label that is used and nowhere defined.
    Label,
    /// A branch or a jump to a place that its offset does not reach.
    Far,
}

impl JobCause {
    ghost use Rattle.std.specs.Prelude.{◌≡◌};
    ghost use Rattle.guest_asm.specs.Words.{cause_word};

    /// The word that tells it.
    pub fn word(self) -> &'static str
        ensures { result.now ≡ cause_word self }
    {
        match self {
            JobCause::Form => "form",
            JobCause::Harts => "harts",
            JobCause::Twice => "twice",
            JobCause::Range => "range",
            JobCause::Section => "section",
            JobCause::Align => "align",
            JobCause::Full => "full",
            JobCause::Missing => "missing",
            JobCause::Label => "label",
            JobCause::Far => "far",
        }
    }
}

/// The lowest line, counted from 1, at which a pass finds a fault, and the first cause found there. The end counts as
/// the line after the last.
#[derive(Clone, Copy, Debug, PartialEq, Eq)]
pub struct JobFault {
    pub line: u32,
    pub cause: JobCause,
}

/// Why no job was read.
#[derive(Clone, Copy, Debug, PartialEq, Eq)]
pub enum JobRefused {
    Fault(JobFault),
    NoMemory,
}

/// The refusal of a text by the cause that was found at a line.
pub fn refused(line: u32, cause: JobCause) -> JobRefused
    ensures { result ≡ JobRefused.Fault (record { line = line; cause = cause }) }
{
    JobRefused::Fault(JobFault { line, cause })
}

impl From<NoMemory> for JobRefused {
    ghost use Rattle.std.specs.Prelude.{◌≡◌};
    ghost use Rattle.guest_asm.specs.declared.cause.JobRefused.TheVariants as refused;

    ghost from_gives = { λ _ e. e ≡ refused.NoMemory };

    fn from(_error: NoMemory) -> JobRefused {
        JobRefused::NoMemory
    }
}

impl From<AllocError> for JobRefused {
    ghost use Rattle.std.specs.Prelude.{◌≡◌};
    ghost use Rattle.guest_asm.specs.declared.cause.JobRefused.TheVariants as refused;

    ghost from_gives = { λ _ e. e ≡ refused.NoMemory };

    fn from(_error: AllocError) -> JobRefused {
        JobRefused::NoMemory
    }
}

impl<T: Drop> From<AllocFailed<T>> for JobRefused {
    ghost use Rattle.std.specs.Prelude.{◌≡◌};
    ghost use Rattle.guest_asm.specs.declared.cause.JobRefused.TheVariants as refused;

    ghost from_gives = { λ _ e. e ≡ refused.NoMemory };

    fn from(_error: AllocFailed<T>) -> JobRefused {
        JobRefused::NoMemory
    }
}

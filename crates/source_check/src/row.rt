//! One row of a log, checked.
ghost use Rattle.std.specs.Prelude.{ℕ, ◌+◌, IfOk, MatchOption};
ghost use Rattle.pl_event.specs.declared.log.Log.{Log};
ghost use Rattle.log_check.specs.Answers.{NamesFirst};
ghost use Rattle.log_check.specs.Checked.{IsChecked, MayPass};
ghost use Rattle.log_text.specs.Reading.{line_of};

use log_check::{OrderCheck, UnorderedPair};
use log_text::{LogStream, Row};
use pl_base::NoMemory;

/// Checks the row that was read last.
#[inline(always)]
pub(crate) fn pass_row(
    check: &mut OrderCheck,
    stream: &LogStream,
    row: &Row,
) -> Result<Option<UnorderedPair>, NoMemory>
    requires { (log : Log) × (at : ℕ) × MayPass check.old log at (line_of stream.now.reader row.now) }
    ensures { (log : Log) (at : ℕ) → MayPass check.old log at (line_of stream.now.reader row.now) →
        IfOk result (λ found. MatchOption found
        (IsChecked check.new log (at + 1)) (λ pair. NamesFirst log pair.earlier pair.later)) }
{
    if row.has_arcs {
        check.pass(&stream.line(row))
    } else {
        check.pass_bare(row.what)
    }
}

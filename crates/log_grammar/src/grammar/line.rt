//! The words of a record, and of a run of pages.
ghost use Rattle.std.specs.Prelude.{◌∷◌, IfSome, IfNone};
ghost use Rattle.log_grammar.specs.Form.{IsRecordInForm, most_read};
ghost use Rattle.log_grammar.specs.Spelling.{record_words};
ghost use Rattle.log_grammar.specs.Reads.{Reads, IsPageRun, page_words};

use super::arcs::point_at;
use super::field::{hart, page_kind, pages};
use super::kind::kind_at;
use pl_event::{Event, PageRun, Record};
use pl_text::{after_byte, after_word};

/// The words of a record, without its arcs.
#[inline(always)]
pub fn record(text: &[u8]) -> Option<(Record, &[u8])>
    ensures { Reads (IsRecordInForm most_read) record_words (32 ∷ text.now) result }
{
    let (hart, rest) = hart(text)?;
    let rest = after_byte(rest, b' ')?;
    if let Some(rest) = after_word(rest, b"! ") {
        let (of, rest) = point_at(rest)?;
        return Some((Record::Notice { hart, of }, rest));
    }
    let (kind, rest) = kind_at(rest)?;
    Some((Record::Event(Event { hart, kind }), rest))
}

/// The words of a line of pages.
pub fn page_run(text: &[u8]) -> Option<(PageRun, &[u8])>
    ensures { Reads IsPageRun page_words (32 ∷ text.now) result }
{
    let rest = after_word(text, b"page")?;
    let ((first, count), rest) = pages(rest)?;
    let (kind, rest) = page_kind(rest)?;
    Some((PageRun { first, count, kind }, rest))
}

//! The three kinds of line.

mod arcs;
mod field;
mod kind;
mod line;

ghost use Rattle.std.specs.Prelude.{IfSome, IfNone};
ghost use Rattle.log_grammar.specs.Begins.{Begins, BeginsWithRow, BeginsWithNoRow, BeginsWithNoPage, BeginsWithHeader, BeginsWithNoHeader};
ghost use Rattle.log_grammar.specs.Spelling.{page};
ghost use Rattle.log_grammar.specs.Reads.{ReadsHarts};

use crate::points::ArcList;
use arcs::end_at;
use line::{page_run, record};
use pl_event::{PageRun, Record};
use pl_text::{after_byte, after_word, decimal_at};

/// How many harts the header names that the bytes begin with, its size of blocks, and what follows its line feed.
pub fn header_at(bytes: &[u8]) -> Option<(u8, u8, &[u8])>
    ensures found { IfSome result (λ r. BeginsWithHeader bytes.now r.0 r.1 r.2.now) }
    ensures missed { IfNone result (BeginsWithNoHeader bytes.now) }
{
    if let Some(rest) = after_word(bytes, b"PLOG 1 harts ") {
        let (harts, rest) = harts_at(rest)?;
        let rest = after_word(rest, b" block 16\n")?;
        return Some((harts, 16, rest));
    }
    let rest = after_word(bytes, b"PLOG 2 harts ")?;
    let (harts, rest) = harts_at(rest)?;
    let rest = after_word(rest, b" block 4\n")?;
    Some((harts, 4, rest))
}

/// From 1 to 8 harts.
fn harts_at(text: &[u8]) -> Option<(u8, &[u8])>
    ensures { ReadsHarts text.now result }
{
    let (harts, rest) = decimal_at(text, 8)?;
    if harts == 0 {
        return None;
    }
    Some((harts as u8, rest))
}

/// The record of the well-formed line that the bytes begin with, whether it has arcs, which are put into the list, and
/// what follows the line feed.
#[inline(always)]
pub fn row_at<'a>(bytes: &'a [u8], list: &mut ArcList) -> Option<(Record, bool, &'a [u8])>
    ensures found { IfSome result (λ r. BeginsWithRow bytes.now r.0 r.1 list.new r.2.now) }
    ensures missed { IfNone result (BeginsWithNoRow bytes.now) }
{
    let (what, rest) = record(bytes)?;
    let Some((has_arcs, rest)) = end_at(what, rest, list) else {
        return None;
    };
    Some((what, has_arcs, rest))
}

/// The line of a well-formed run of pages that the bytes begin with, and what follows its line feed.
pub fn page_at(bytes: &[u8]) -> Option<(PageRun, &[u8])>
    ensures found { IfSome result (λ r. Begins bytes.now (page r.0) r.1.now) }
    ensures missed { IfNone result (BeginsWithNoPage bytes.now) }
{
    let (run, rest) = page_run(bytes)?;
    let rest = after_byte(rest, b'\n')?;
    Some((run, rest))
}

//! What bytes say of their faults, whatever memory there is.
ghost use Rattle.std.specs.Prelude.{◌≡◌, ◌<◌, length, IfSome, IfNone};
ghost use Rattle.pl_event.specs.declared.log.Log.{Log};
ghost use Rattle.log_text.specs.declared.cause.LogFault.{LogFault};
ghost use Rattle.log_grammar.specs.Begins.{Begins, BeginsWithNoPage, BeginsWithNoRow};
ghost use Rattle.log_grammar.specs.Spelling.{Entry};
ghost use Rattle.log_text.specs.WellFormed.{IsFirstFault, IsLogText};

use log_grammar::{ArcList, header_at, page_at, row_at};

/// Bytes have one first fault at most, and where they have one they are the text of no log. It looks at each line once,
/// and takes no memory.
pub fn one_fault(bytes: &[u8])
    ensures one { (fault other : LogFault) → IsFirstFault bytes.now fault → IsFirstFault bytes.now other →
        fault ≡ other }
    ensures none { (fault : LogFault) (log : Log) → IsFirstFault bytes.now fault → IsLogText bytes.now log → ⊥ }
{
    let Some((_, _, lines)) = header_at(bytes) else {
        return;
    };
    let mut list = ArcList::new();
    let mut rest = lines;
    'lines: while let Some(next) = after_line(rest, &mut list) {
        rest = next;
    }
}

/// What follows the line that begins the text, or none where none begins it.
fn after_line<'a>(text: &'a [u8], list: &mut ArcList) -> Option<&'a [u8]>
    ensures found { IfSome result (λ rest. (e : Entry) × Begins text.now e rest.now) }
    ensures none { IfNone result (BeginsWithNoPage text.now × BeginsWithNoRow text.now) }
    ensures shorter { IfSome result (λ rest. length rest.now < length text.now) }
{
    if let Some((_, rest)) = page_at(text) {
        return Some(rest);
    }
    match row_at(text, list) {
        Some((_, _, rest)) => Some(rest),
        None => None,
    }
}

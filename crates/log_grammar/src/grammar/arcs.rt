//! The arcs after a record.
ghost use Rattle.std.specs.Prelude.{IfSome, IfNone, ◌≡◌, ◌∷◌, List, ℕ};
ghost use Rattle.pl_event.specs.declared.log.Point.{Point};
ghost use Rattle.log_grammar.specs.Form.{ArePointsInForm, MayHave, most_read};
ghost use Rattle.log_grammar.specs.Reads.{ReadsPoint, IsArcList, behind_commas};
ghost use Rattle.log_grammar.specs.Begins.{EndsWithArcs, EndsWithNone};

use crate::points::ArcList;
use pl_base::layout::MAX_RECORDS;
use pl_event::{Point, Record};
use pl_text::{after_byte, after_word, decimal_at, digit_at};

/// A hart and the number of a record of it.
#[inline]
pub fn point_at(text: &[u8]) -> Option<(Point, &[u8])>
    ensures { ReadsPoint text.now result }
{
    let (hart, rest) = digit_at(text)?;
    let rest = after_byte(rest, b':')?;
    let (number, rest) = decimal_at(rest, MAX_RECORDS)?;
    if number == 0 {
        return None;
    }
    Some((Point { hart, number }, rest))
}

/// One arc or more, one comma apart, which are put into the list, and what follows them.
fn list_at<'a>(text: &'a [u8], list: &mut ArcList) -> Option<&'a [u8]>
    ensures found { IfSome result (λ rest. IsArcList text.now list.new rest.now) }
    ensures missed { IfNone result ((points : List Point) (after : List ℕ) → ArePointsInForm most_read points
        → 44 ∷ text.now ≡ behind_commas points (10 ∷ after) → ⊥) }
{
    let (first, mut rest) = point_at(text)?;
    *list = ArcList::new();
    list.add(first);
    'points: while let Some(behind) = after_byte(rest, b',') {
        let Some((point, after)) = point_at(behind) else {
            return None;
        };
        list.add(point);
        rest = after;
    }
    Some(rest)
}

/// Whether arcs end the line of an event, which are put into the list, and what follows the line feed.
#[inline(always)]
fn arcs_at<'a>(what: Record, text: &'a [u8], list: &mut ArcList) -> Option<(bool, &'a [u8])>
    requires { (points : List Point) → MayHave what points }
    ensures found { IfSome result (λ r. EndsWithArcs what text.now r.0 list.new r.1.now) }
    ensures missed { IfNone result (EndsWithNone what text.now) }
{
    if let Some(rest) = after_byte(text, b'\n') {
        return Some((false, rest));
    }
    let rest = after_word(text, b" < ")?;
    let Some(rest) = list_at(rest, list) else {
        return None;
    };
    let rest = after_byte(rest, b'\n')?;
    Some((true, rest))
}

/// Whether arcs end the line of a record, which are put into the list, and what follows the line feed. A notice
/// has none.
#[inline(always)]
pub fn end_at<'a>(what: Record, text: &'a [u8], list: &mut ArcList) -> Option<(bool, &'a [u8])>
    ensures found { IfSome result (λ r. EndsWithArcs what text.now r.0 list.new r.1.now) }
    ensures missed { IfNone result (EndsWithNone what text.now) }
{
    match what {
        Record::Event(_) => arcs_at(what, text, list),
        Record::Notice { .. } => {
            let rest = after_byte(text, b'\n')?;
            Some((false, rest))
        }
    }
}

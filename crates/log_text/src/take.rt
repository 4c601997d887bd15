//! One more record after the lines so far: judged, and counted among them where it breaks no rule.
//!
//! Events and notices go ways of their own, on which what the record is has not to be asked again; notices are few.

ghost use Rattle.std.specs.Prelude.{◌≡◌, ◌++◌, ◌∷◌, [], List, None};
ghost use Rattle.pl_event.specs.declared.log.Point.{Point};
ghost use Rattle.log_grammar.specs.Arcs.{ShowsPoints};
ghost use Rattle.log_grammar.specs.Spelling.{Entry, row};
ghost use Rattle.log_text.specs.Tally.{Keeps};
ghost use Rattle.log_text.specs.WellFormed.{broken};

use crate::cause::LogCause;
use crate::judge::judge_row;
use crate::tally::Tally;
use log_grammar::ArcList;
use pl_event::{Point, Record};

/// The first rule that a record breaks after the lines so far; where it breaks none, it is one of them from now on.
#[inline(always)]
pub fn take_row(tally: &mut Tally, what: Record, has_arcs: bool, list: &ArcList) -> Option<LogCause>
    ensures judged { (before : List Entry) (points : List Point) → Keeps tally.old before →
        ShowsPoints has_arcs list.now points
        → result ≡ broken tally.old.harts before (row what points) }
    ensures harts { tally.new.harts ≡ tally.old.harts }
    ensures keeps { result ≡ None → (before : List Entry) (points : List Point) → Keeps tally.old before →
        broken tally.old.harts before (row what points) ≡ None
        → Keeps tally.new (before ++ row what points ∷ []) }
{
    match what {
        Record::Event(event) => take_known(tally, Record::Event(event), has_arcs, list),
        Record::Notice { hart, of } => take_notice(tally, hart, of, has_arcs, list),
    }
}

#[inline(never)]
fn take_notice(
    tally: &mut Tally,
    hart: u8,
    of: Point,
    has_arcs: bool,
    list: &ArcList,
) -> Option<LogCause>
    ensures judged { (before : List Entry) (points : List Point) → Keeps tally.old before →
        ShowsPoints has_arcs list.now points
        → result ≡ broken tally.old.harts before (row (Record.Notice hart of) points) }
    ensures harts { tally.new.harts ≡ tally.old.harts }
    ensures keeps { result ≡ None → (before : List Entry) (points : List Point) → Keeps tally.old before →
        broken tally.old.harts before (row (Record.Notice hart of) points) ≡ None
        → Keeps tally.new (before ++ row (Record.Notice hart of) points ∷ []) }
{
    take_known(tally, Record::Notice { hart, of }, has_arcs, list)
}

#[inline(always)]
fn take_known(tally: &mut Tally, what: Record, has_arcs: bool, list: &ArcList) -> Option<LogCause>
    ensures judged { (before : List Entry) (points : List Point) → Keeps tally.old before →
        ShowsPoints has_arcs list.now points
        → result ≡ broken tally.old.harts before (row what points) }
    ensures harts { tally.new.harts ≡ tally.old.harts }
    ensures keeps { result ≡ None → (before : List Entry) (points : List Point) → Keeps tally.old before →
        broken tally.old.harts before (row what points) ≡ None
        → Keeps tally.new (before ++ row what points ∷ []) }
{
    let cause = judge_row(tally, what, has_arcs, list);
    if cause.is_none() {
        tally.add_row(what);
    }
    cause
}

//! The rule of the table, and what each kind of word step does to the views.
use crate::view::View;
use atomic_table::{Join, Play, Split, TableRule};
use order_core::Plan;

/// The words and the views are a consistent state of the core.
pub struct CoreRule;

impl<P: Plan> TableRule<(), View, P> for CoreRule {
    ghost use Rattle.order_core.specs.Course.{course};
    ghost use Rattle.guard_table.specs.Rule.{HoldsCore};
    ghost use Rattle.guard_table.specs.Views.{first_view};

    ghost holds = { λ plan s. HoldsCore (course P.planned plan) s };

    ghost first = { λ plan. first_view (course P.planned plan) };
}

// The head makes the seat of a hart.
pub(crate) struct Seats<const HART: u8>;

impl<const HART: u8> Split<View> for Seats<HART> {
    ghost use Rattle.guard_table.specs.Views.{made_seat, fresh_view};

    ghost left = { λ v. made_seat HART v };

    ghost right = { λ v. fresh_view HART v };
}

// The head takes back the seat of a hart.
pub(crate) struct TakesBack;

impl Join<View> for TakesBack {
    ghost use Rattle.guard_table.specs.Views.{freed_seat, spent_view};

    ghost both = { λ v w. freed_seat w.hart v };

    ghost spent = { spent_view };
}

// A hart tells its progress word.
pub(crate) struct Tells;

impl Split<View> for Tells {
    ghost use Rattle.guard_table.specs.Views.{told_by};

    ghost left = { λ v. v };

    ghost right = { λ v. told_by v };
}

// A hart takes in what another has told.
pub(crate) struct Learns;

impl Join<View> for Learns {
    ghost use Rattle.guard_table.specs.Views.{learnt_from, spent_view};

    ghost both = { λ v w. learnt_from w v };

    ghost spent = { spent_view };
}

// A hart loads the progress word of another.
pub(crate) struct Sees;

impl Play<(), View> for Sees {
    ghost use Rattle.guard_table.specs.inner.Plays.{IsSeen};

    ghost then = { IsSeen };
}

// A hart stores its own progress word.
pub(crate) struct Advertises;

impl Play<(), View> for Advertises {
    ghost use Rattle.guard_table.specs.inner.Plays.{IsAdvertised};

    ghost then = { IsAdvertised };
}

// A hart performs a read.
pub(crate) struct Reads;

impl Play<(), View> for Reads {
    ghost use Rattle.guard_table.specs.inner.Plays.{IsRead};

    ghost then = { IsRead };
}

// A hart performs a write.
pub(crate) struct Writes;

impl Play<(), View> for Writes {
    ghost use Rattle.guard_table.specs.inner.Plays.{IsWritten};

    ghost then = { IsWritten };
}

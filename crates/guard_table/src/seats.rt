//! The table and its seats.
ghost use Rattle.std.specs.Prelude.{◌≡◌, ◌<◌, [], length};
ghost use Rattle.pl_base.specs.declared.layout.TheConstants.{MAX_HARTS};
ghost use Rattle.order_core.specs.declared.course.TheConstants.{FIRST_WORD};
ghost use Rattle.guard_table.specs.declared.view.Role.TheVariants.{OfHead, OfHart, OfNote};
ghost use Rattle.guard_table.specs.Views.{IsOnTable, HasEight};

use crate::rule::CoreRule;
use crate::view::View;
use atomic_table::{Seat, Table};
use order_core::Plan;
use std::alloc::Global;

/// The table of one run: the progress words of its harts and the words of its plan. Threads share it by reference.
#[derive(Drop)]
pub struct Monitor<P: Plan> {
    pub(crate) table: Table<(), View, P, CoreRule, Global>,
    pub(crate) plan: P,
    ghost key: { table.shared.key ≡ plan },
    ghost slots: { table.shared.table_id.slots ≡ 0 },
}

/// The first seat, which makes the seats of the harts and takes them back.
#[derive(Drop)]
pub struct Head {
    pub(crate) seat: Seat<(), View>,
    ghost role: { seat.me.0.role ≡ OfHead },
    ghost on_table: { IsOnTable seat },
}

/// The seat of one hart.
#[derive(Drop)]
pub struct GuardSeat {
    pub(crate) seat: Seat<(), View>,
    pub(crate) hart: u8,
    pub(crate) progress: u64,
    ghost role: { seat.me.0.role ≡ OfHart },
    ghost on_table: { IsOnTable seat },
    ghost own_hart: { seat.me.0.hart ≡ hart },
    ghost inside: { hart < seat.me.0.course.log.harts },
    ghost own_progress: { seat.me.0.progress ≡ progress },
    ghost eight: { HasEight seat.me.0 },
}

/// What a hart has told of its progress word.
#[derive(Drop)]
pub struct Note {
    pub(crate) seat: Seat<(), View>,
    pub(crate) hart: u8,
    pub(crate) upto: u64,
    ghost role: { seat.me.0.role ≡ OfNote },
    ghost on_table: { IsOnTable seat },
    ghost own_hart: { seat.me.0.hart ≡ hart },
    ghost inside: { hart < seat.me.0.course.log.harts },
    ghost own_progress: { seat.me.0.progress ≡ upto },
}

/// No memory was left for the words. The monitor and its head are as they were.
#[derive(Drop)]
pub struct CloseRefused<P: Plan> {
    pub monitor: Monitor<P>,
    pub head: Head,
}

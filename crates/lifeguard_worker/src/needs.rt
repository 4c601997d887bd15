//! What a record needs of other harts, and looks at them.
ghost use Rattle.std.specs.Prelude.{◌≡◌, ◌<◌, ◌≤◌, ℕ, IfSome, Some, None, slice_index, slice_index_or};
ghost use Rattle.pl_base.specs.declared.layout.TheConstants.{MAX_HARTS};
ghost use Rattle.pl_event.specs.Needs.{needs_of};
ghost use Rattle.order_core.specs.Lawful.{IsLawful};
ghost use Rattle.guard_table.specs.Seats.{seat_view, IsSeatOf};
ghost use Rattle.turn_worker.specs.declared.worker.Turn.TheVariants.{Waiting};
ghost use Rattle.lifeguard_worker.specs.Rows.{needs_in};
ghost use Rattle.lifeguard_worker.specs.Turns.{HasLooked, HasSeenBelow, IsShort};

use guard_table::{GuardSeat, Monitor};
use order_core::Plan;
use pl_base::layout::MAX_HARTS;
use pl_event::Arcs;
use turn_worker::Turn;

/// A hart that is not far enough.
#[derive(Clone, Copy)]
pub(crate) struct Short {
    pub(crate) hart: u8,
    /// The number of its record that is needed.
    pub(crate) need: u32,
    /// What a look found in its progress word.
    pub(crate) seen: u64,
}

impl Short {
    /// How the turn ends.
    pub(crate) fn answer(self) -> Turn
        ensures { result ≡ Waiting self.hart self.need self.seen }
    {
        Turn::Waiting {
            hart: self.hart,
            need: self.need,
            seen: self.seen,
        }
    }
}

// Looks at a hart of which something is needed: what it is short of.
fn look<P: Plan>(
    monitor: &Monitor<P>,
    seat: &mut GuardSeat,
    needs: &Arcs,
    hart: u8,
) -> Option<Short>
    requires of { IsSeatOf P.planned monitor.now seat.old }
    requires inside { hart < MAX_HARTS }
    requires lawful { ∥ IsLawful (seat_view seat.old).course ∥₁ }
    requires needs { let v = seat_view seat.old in (m : ℕ) × (needs.now ≡ needs_of v.course.log.lines v.hart m) }
    ensures of { IsSeatOf P.planned monitor.now seat.new }
    ensures looked { HasLooked (seat_view seat.old) (seat_view seat.new) }
    ensures seen { result ≡ None → (need : ℕ) → slice_index_or needs.now hart None ≡ Some need
        → need ≤ slice_index (seat_view seat.new).seen hart }
    ensures short { HasSeenBelow needs.now (seat_view seat.old) hart
        → IfSome result (λ short. IsShort needs.now (seat_view seat.old) (seat_view seat.new) short) }
{
    let need = needs.get(hart)?;
    let seen = monitor.seen(seat, hart);
    if seen < u64::from(need) {
        Some(Short { hart, need, seen })
    } else {
        None
    }
}

// Looks at the harts of which something is needed, up to the first that is not far enough.
fn first_short<P: Plan>(monitor: &Monitor<P>, seat: &mut GuardSeat, needs: &Arcs) -> Option<Short>
    requires of { IsSeatOf P.planned monitor.now seat.old }
    requires lawful { ∥ IsLawful (seat_view seat.old).course ∥₁ }
    requires needs { let v = seat_view seat.old in (m : ℕ) × (needs.now ≡ needs_of v.course.log.lines v.hart m) }
    ensures of { IsSeatOf P.planned monitor.now seat.new }
    ensures looked { HasLooked (seat_view seat.old) (seat_view seat.new) }
    ensures seen { result ≡ None → HasSeenBelow needs.now (seat_view seat.new) MAX_HARTS }
    ensures short { IfSome result (λ short. IsShort needs.now (seat_view seat.old) (seat_view seat.new) short) }
{
    for hart in 0..MAX_HARTS {
        let short = look(monitor, seat, needs, hart);
        if short.is_some() {
            return short;
        }
    }
    None
}

/// Looks at the harts of which a record needs something, up to the first that is not far enough. Where it needs
/// nothing no hart is looked at.
pub(crate) fn short_of<P: Plan>(
    monitor: &Monitor<P>,
    seat: &mut GuardSeat,
    needs: &Option<Arcs>,
) -> Option<Short>
    requires of { IsSeatOf P.planned monitor.now seat.old }
    requires lawful { ∥ IsLawful (seat_view seat.old).course ∥₁ }
    requires needs { let v = seat_view seat.old in
        (m : ℕ) × (needs_in needs.now ≡ needs_of v.course.log.lines v.hart m) }
    ensures of { IsSeatOf P.planned monitor.now seat.new }
    ensures looked { HasLooked (seat_view seat.old) (seat_view seat.new) }
    ensures seen { result ≡ None → HasSeenBelow (needs_in needs.now) (seat_view seat.new) MAX_HARTS }
    ensures short { IfSome result (λ short.
        IsShort (needs_in needs.now) (seat_view seat.old) (seat_view seat.new) short) }
{
    match needs {
        None => None,
        Some(needs) => first_short(monitor, seat, needs),
    }
}

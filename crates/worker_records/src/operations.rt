//! The operations of alert events.
ghost use Rattle.std.specs.Prelude.{◌≡◌, ℕ, ◌<◌, [], true};
ghost use Rattle.pl_event.specs.Alerts.{is_alert_kind};
ghost use Rattle.guard_table.specs.Seats.{seat_view};
ghost use Rattle.worker_laws.specs.Runs.{before, shapes_at};
ghost use Rattle.worker_records.specs.Accesses.{HasWritten};
ghost use Rattle.worker_records.specs.Alerts.{IsAmid, IsFound};
ghost use Rattle.worker_records.specs.Places.{IsAt, run_at};

use crate::blocks::{change_range, read_range};
use crate::pages::{map_pages, unmap_pages};
use crate::ranges::ByteRange;
use crate::state::Found;
use guard_table::{GuardSeat, Monitor};
use lifeguard::{Lifeguard, RangeKind};
use order_core::Plan;
use pl_event::Kind;

/// Makes all operations of an alert event, none of which is made yet.
pub fn operate<P: Plan, L: Lifeguard>(
    monitor: &Monitor<P>,
    seat: &mut GuardSeat,
    guard: L,
    number: u32,
    kind: Kind,
) -> Found
    requires at { IsAt P.planned monitor.now (L.rules guard) seat.old }
    requires alert { is_alert_kind kind ≡ true }
    requires amid { let v = seat_view seat.old in let p = run_at (L.rules guard) v in
        IsAmid p v number 0 kind (before p v.hart number).words (shapes_at p v.hart number kind) }
    ensures at { IsAt P.planned monitor.now (L.rules guard) seat.new }
    ensures view { HasWritten (seat_view seat.old) (seat_view seat.new) }
    ensures all { let p = run_at (L.rules guard) (seat_view seat.old) in (w : ℕ → ℕ) × (op : ℕ)
        × IsAmid p (seat_view seat.new) number op kind w [] × (op < 4294967295) }
    ensures found { let v = seat_view seat.old in let p = run_at (L.rules guard) v in
        IsFound p kind (before p v.hart number).state result }
{
    match kind {
        Kind::Al { addr, len } => {
            change_range(
                monitor,
                seat,
                guard,
                number,
                RangeKind::Al,
                ByteRange { addr, len },
            );
            Found::NONE
        }
        Kind::Fr { addr, len } => {
            change_range(
                monitor,
                seat,
                guard,
                number,
                RangeKind::Fr,
                ByteRange { addr, len },
            );
            Found::NONE
        }
        Kind::Rd { addr, len } => {
            let range = ByteRange { addr, len };
            Found::touched(change_range(monitor, seat, guard, number, RangeKind::Rd, range))
        }
        Kind::Wr { addr, len } => {
            read_range(monitor, seat, guard, number, ByteRange { addr, len })
        }
        Kind::Mp { page, count } => {
            map_pages(
                monitor,
                seat,
                guard,
                number,
                u32::from(page),
                u32::from(count),
            );
            Found::NONE
        }
        Kind::Um { page, count } => {
            unmap_pages(
                monitor,
                seat,
                guard,
                number,
                u32::from(page),
                u32::from(count),
            );
            Found::NONE
        }
        Kind::Ld { .. }
        | Kind::St { .. }
        | Kind::Op { .. }
        | Kind::Mv { .. }
        | Kind::Im { .. }
        | Kind::Br { .. }
        | Kind::Jr { .. }
        | Kind::Bf { .. }
        | Kind::Ex
        | Kind::Ft { .. } => Found::NONE,
    }
}

//! Whose turn it is.
ghost use Rattle.std.specs.Prelude.{◌≡◌, ◌≤◌, ◌<◌, ◌&&◌, Some, length, drop, find, count_by, slice_get, nat_le, nat_lt, IfSome, IfNone};
ghost use Rattle.core_sim.specs.Draws.{drawn};
ghost use Rattle.core_sim.specs.Harts.{is_live, live_harts, is_among_live};
ghost use Rattle.core_sim.specs.Schedules.{round_turn, listed_turn, drawn_turn, turn_of_step, stepped, no_turn, IsTurnOf};
ghost use Rattle.pl_base.specs.declared.layout.TheConstants.{MAX_HARTS};

use crate::hart::Standing;
use crate::job::{Item, Schedule};

/// Where a schedule is between two turns.
#[derive(Clone, Copy, Debug, PartialEq, Eq)]
pub enum Place {
    /// Turns of `q` steps go round; the next one goes to the first live hart from `from` on, and else to the first.
    Around { q: u32, from: u32 },
    /// The item of the list at place `at` is the next.
    Listed { at: usize },
    /// Turns of `q` steps of harts that are drawn; `x` is the number of the draw before.
    Drawn { x: u32, q: u32 },
}

/// A turn: its hart, how many steps are left of it, and where the schedule is after it.
#[derive(Clone, Copy, Debug, PartialEq, Eq)]
pub struct Turn {
    pub hart: u8,
    pub left: u32,
    pub place: Place,
}

impl Turn {
    /// No turn yet.
    pub fn none(schedule: &Schedule) -> Turn
        ensures { result ≡ no_turn schedule.now }
    {
        let place = match *schedule {
            Schedule::Rr { q } => Place::Around { q, from: 0 },
            Schedule::List { .. } => Place::Listed { at: 0 },
            Schedule::Seed { n, q } => Place::Drawn { x: n, q },
        };
        Turn {
            hart: 0,
            left: 0,
            place,
        }
    }

    /// The turn that the next step belongs to; none exactly where no hart is live.
    #[inline]
    pub fn of_step(&self, items: &[Item], harts: &[Standing]) -> Option<Turn>
        requires { length harts.now ≤ MAX_HARTS }
        ensures { IsTurnOf harts.now (turn_of_step items.now self.now (live_harts harts.now)) result }
    {
        if self.goes_on(harts) {
            return Some(*self);
        }
        match self.place {
            Place::Around { q, from } => around(harts, q, from),
            Place::Listed { at } => listed(items, at, harts),
            Place::Drawn { x, q } => drawn(harts, next_draw(x), q),
        }
    }

    /// Whether steps are left, and the hart is live.
    #[inline]
    fn goes_on(&self, harts: &[Standing]) -> bool
        ensures { result ≡ (nat_lt 0 self.now.left && is_among_live (live_harts harts.now) self.now.hart) }
    {
        self.left > 0 && is_live(harts, self.hart)
    }

    /// The turn after one of its steps.
    #[inline]
    pub fn stepped(&self) -> Turn
        ensures { result ≡ stepped self.now }
    {
        Turn {
            hart: self.hart,
            left: self.left.saturating_sub(1),
            place: self.place,
        }
    }
}

/// Whether the hart of a number is live.
#[inline]
fn is_live(harts: &[Standing], hart: u8) -> bool
    ensures { result ≡ is_among_live (live_harts harts.now) hart }
{
    let place = usize::from(hart);
    if place >= harts.len() {
        return false;
    }
    harts[place].end.is_live()
}

/// A turn of a round.
fn around(harts: &[Standing], q: u32, from: u32) -> Option<Turn>
    requires { length harts.now ≤ MAX_HARTS }
    ensures { IsTurnOf harts.now (round_turn q from (live_harts harts.now)) result }
{
    let hart = match first_from(harts, from) {
        Some(hart) => hart,
        None => first_from(harts, 0)?,
    };
    Some(Turn {
        hart,
        left: q,
        place: Place::Around {
            q,
            from: u32::from(hart) + 1,
        },
    })
}

/// The first live hart from a number on.
fn first_from(harts: &[Standing], from: u32) -> Option<u8>
    requires { length harts.now ≤ MAX_HARTS }
    ensures first { result ≡ find (λ hart. nat_le from hart) (live_harts harts.now) }
    ensures within { IfSome result (λ hart. hart < length harts.now) }
{
    for (number, hart) in harts.iter().enumerate() {
        if is_live_from(hart, number, from) {
            return Some(number as u8);
        }
    }
    None
}

/// Whether a hart of that number is live and not below another number.
fn is_live_from(hart: &Standing, number: usize, from: u32) -> bool
    ensures { result ≡ (nat_le from number && is_live hart.now.end) }
{
    from as usize <= number && hart.end.is_live()
}

/// The turn of the first item of a live hart from place `at` of the list on, or the first turn after the list.
fn listed(items: &[Item], at: usize, harts: &[Standing]) -> Option<Turn>
    requires { length harts.now ≤ MAX_HARTS }
    ensures { IsTurnOf harts.now (listed_turn at (drop at items.now) (live_harts harts.now)) result }
{
    let mut next = at;
    while next < items.len() {
        let item = items[next];
        next += 1;
        if is_live(harts, item.hart) {
            return Some(Turn {
                hart: item.hart,
                left: item.count,
                place: Place::Listed { at: next },
            });
        }
    }
    around(harts, 1, 0)
}

/// The number after `x` of the generator that draws harts and programs: x * 1664525 + 1013904223, modulo 2^32.
pub fn next_draw(x: u32) -> u32
    ensures { result ≡ drawn x }
{
    x.wrapping_mul(1_664_525).wrapping_add(1_013_904_223)
}

/// A turn of the live hart at the place that a number names.
fn drawn(harts: &[Standing], x: u32, q: u32) -> Option<Turn>
    requires { length harts.now ≤ MAX_HARTS }
    ensures { IsTurnOf harts.now (drawn_turn x q (live_harts harts.now)) result }
{
    let count = count_live(harts);
    if count == 0 {
        return None;
    }
    let hart = nth_live(harts, x / 65_536 % count)?;
    Some(Turn {
        hart,
        left: q,
        place: Place::Drawn { x, q },
    })
}

/// How many harts are live.
fn count_live(harts: &[Standing]) -> u32
    requires { length harts.now ≤ MAX_HARTS }
    ensures { result ≡ count_by (λ hart. is_live hart.end) harts.now }
{
    harts.iter().filter(|hart| hart.end.is_live()).count() as u32
}

/// The live hart with so many live ones below it.
fn nth_live(harts: &[Standing], n: u32) -> Option<u8>
    requires { length harts.now ≤ MAX_HARTS }
    ensures nth { IfSome result (λ hart. slice_get (live_harts harts.now) n ≡ Some hart) }
    ensures within { IfSome result (λ hart. hart < length harts.now) }
    ensures none { IfNone result (length (live_harts harts.now) ≤ n) }
{
    let mut left = n;
    for (number, hart) in harts.iter().enumerate() {
        if hart.end.is_live() {
            if left == 0 {
                return Some(number as u8);
            }
            left -= 1;
        }
    }
    None
}

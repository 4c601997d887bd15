//! Free units of the heap.
ghost use Rattle.std.specs.Prelude.{◌≡◌, ℕ, ◌+◌, ◌-◌, ◌≤◌, ◌<◌, IfSome, IfNone, MatchBool, OnOk, OnErr, length, vec_len};
ghost use Rattle.guest_heap.specs.Holes.{IsApart, In, AllIn, Loses, Gains, room, start_of, end_of};

use pl_base::NoMemory;

/// Free units, from `start` up to `end`.
#[derive(Clone, Copy, Debug, PartialEq, Eq)]
pub struct Hole {
    pub start: u32,
    pub end: u32,
}

/// Takes so many units, at least one, from the beginning of the first hole that has them; says where they start.
pub fn take(holes: &mut Vec<Hole>, need: u32) -> Option<u32>
    requires apart { IsApart 0 holes.old.items }
    requires some { 0 < need }
    ensures none { IfNone result ((unit : ℕ) → AllIn holes.old.items unit need → ⊥) }
    ensures unchanged { IfNone result (holes.new.items ≡ holes.old.items) }
    ensures all { IfSome result (λ start. AllIn holes.old.items start need) }
    ensures lowest { IfSome result (λ start. (unit : ℕ) → AllIn holes.old.items unit need → start ≤ unit) }
    ensures loses { IfSome result (λ start. Loses holes.old.items holes.new.items start need) }
{
    let index = first_with(holes, need)?;
    let hole = holes[index];
    if hole.end - hole.start == need {
        let _ = holes.remove(index);
    } else {
        holes[index] = Hole {
            start: hole.start + need,
            end: hole.end,
        };
    }
    Some(hole.start)
}

/// The first hole with at least so many units.
fn first_with(holes: &[Hole], need: u32) -> Option<usize>
    ensures none { IfNone result ((k : ℕ) → k < length holes.now → room holes.now k < need) }
    ensures within { IfSome result (λ index. index < length holes.now) }
    ensures fits { IfSome result (λ index. need ≤ room holes.now index) }
    ensures first { IfSome result (λ index. (k : ℕ) → k < index → room holes.now k < need) }
{
    for (index, hole) in holes.iter().enumerate() {
        if hole.end.saturating_sub(hole.start) >= need {
            return Some(index);
        }
    }
    None
}

/// Gives units back, at least one and none of them free, and joins the hole with its neighbours on both sides.
pub fn give(holes: &mut Vec<Hole>, start: u32, end: u32) -> Result<(), NoMemory>
    requires apart { IsApart 0 holes.old.items }
    requires some { start < end }
    requires taken { (unit : ℕ) → start ≤ unit → unit < end → In holes.old.items unit → ⊥ }
    ensures gains { OnOk result (Gains holes.old.items holes.new.items start end) }
    ensures unchanged { OnErr result (holes.new.items ≡ holes.old.items) }
{
    let index = first_reaching(holes, start);
    if starts_by(holes, index, end) {
        join(holes, index, start, end);
        return Ok(());
    }
    holes.insert(index, Hole { start, end })?;
    Ok(())
}

/// Joins units to the hole at a place, which they touch, and to the next one if they touch it too.
fn join(holes: &mut Vec<Hole>, index: usize, start: u32, end: u32)
    requires apart { IsApart 0 holes.old.items }
    requires some { start < end }
    requires taken { (unit : ℕ) → start ≤ unit → unit < end → In holes.old.items unit → ⊥ }
    requires below { (k : ℕ) → k < index → end_of holes.old.items k < start }
    requires within { index < vec_len holes.old }
    requires reaches { start ≤ end_of holes.old.items index }
    requires reached { start_of holes.old.items index ≤ end }
    ensures { Gains holes.old.items holes.new.items start end }
{
    let low = holes[index];
    if low.start == end {
        holes[index] = Hole {
            start,
            end: low.end,
        };
        return;
    }
    if starts_by(holes, index + 1, end) {
        let high = holes[index + 1];
        holes[index] = Hole {
            start: low.start,
            end: high.end,
        };
        let _ = holes.remove(index + 1);
        return;
    }
    holes[index] = Hole {
        start: low.start,
        end,
    };
}

/// Whether there is a hole at a place of the list that starts at or before a unit.
fn starts_by(holes: &[Hole], index: usize, unit: u32) -> bool
    ensures { MatchBool result ((index < length holes.now) × (start_of holes.now index ≤ unit))
        (index < length holes.now → unit < start_of holes.now index) }
{
    index < holes.len() && holes[index].start <= unit
}

/// How many holes end below a unit, before the first that does not.
fn first_reaching(holes: &[Hole], unit: u32) -> usize
    ensures within { result ≤ length holes.now }
    ensures below { (k : ℕ) → k < result → end_of holes.now k < unit }
    ensures reaches { result < length holes.now → unit ≤ end_of holes.now result }
{
    for (index, hole) in holes.iter().enumerate() {
        if hole.end >= unit {
            return index;
        }
    }
    holes.len()
}

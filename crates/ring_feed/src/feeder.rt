//! The feeder of a run: it takes records from a feed, and offers each in a chunk to the ring of its hart.
ghost use Rattle.std.specs.Prelude.{◌≡◌, ◌<◌, ◌≤◌, ◌+◌, true, false, [], ◌∷◌, List, length, IfOk};
ghost use Rattle.pl_event.specs.declared.fed.Fed.{Fed};
ghost use Rattle.ring_feed.specs.declared.feeder.TheConstants.{PIECE_RECORDS};
ghost use Rattle.ring_feed.specs.declared.feeding.Feeding.TheVariants as feeding;
ghost use Rattle.ring_feed.specs.Outlets.{AreBehind, AreEmpty, AreOutlets, AreWhole, HaveRoom, rings_of};

use crate::feeding::Feeding;
use crate::outlet::Outlet;
use pl_base::NoMemory;
use pl_event::{Fed, Feed, record_hart};
use std::alloc::Global;
use std::sync::Wait;
use stream_ring::RunName;

/// How many records are taken from a feed at a time.
pub const PIECE_RECORDS: u32 = 64;

// Offers each part once, if it has a record. Is nothing left in any?
fn offer_all<N: RunName, R: Wait>(rt: &R, alloc: Global, outlets: &mut [Outlet<'_, N>]) -> bool
    requires { (rest : List Fed) × AreOutlets N.log rest outlets.old }
    ensures rings { rings_of outlets.new ≡ rings_of outlets.old }
    ensures keeps { (rest : List Fed) → AreOutlets N.log rest outlets.old → AreOutlets N.log rest outlets.new }
    ensures none { result ≡ true → AreEmpty outlets.new }
    ensures left { result ≡ false → AreBehind outlets.new }
{
    let mut none = true;
    for k in 0..outlets.len() {
        none &= outlets[k].offer(rt, alloc);
    }
    none
}

// Has each part room for a record?
fn have_room<N: RunName>(outlets: &[Outlet<'_, N>]) -> bool
    ensures { result ≡ true → HaveRoom outlets.now }
{
    for outlet in outlets {
        if !outlet.has_room() {
            return false;
        }
    }
    true
}

// Offers each part where one has 64 records. False: something is left, since a ring was full.
fn make_room<N: RunName, R: Wait>(rt: &R, alloc: Global, outlets: &mut [Outlet<'_, N>]) -> bool
    requires { (rest : List Fed) × AreOutlets N.log rest outlets.old }
    ensures rings { rings_of outlets.new ≡ rings_of outlets.old }
    ensures keeps { (rest : List Fed) → AreOutlets N.log rest outlets.old → AreOutlets N.log rest outlets.new }
    ensures room { result ≡ true → HaveRoom outlets.new }
    ensures left { result ≡ false → AreBehind outlets.new }
{
    if have_room(outlets) {
        return true;
    }
    offer_all(rt, alloc, outlets)
}

// Appends a record to the part of its hart. False: the ring of that hart was full.
fn append<N: RunName, R: Wait>(
    rt: &R,
    alloc: Global,
    outlets: &mut [Outlet<'_, N>],
    fed: Fed,
) -> Result<bool, NoMemory>
    requires outlets { (rest : List Fed) × AreOutlets N.log (fed ∷ rest) outlets.old }
    requires room { HaveRoom outlets.old }
    ensures rings { IfOk result (λ _. rings_of outlets.new ≡ rings_of outlets.old) }
    ensures outlets { IfOk result (λ _. (rest : List Fed) →
        AreOutlets N.log (fed ∷ rest) outlets.old → AreOutlets N.log rest outlets.new) }
    ensures room { IfOk result (λ on. on ≡ true → HaveRoom outlets.new) }
{
    let hart = usize::from(record_hart(&fed.line.what));
    outlets[hart].append(rt, alloc, fed)
}

// Takes a record from the feed. Where that one's ring is full, or none is left, it offers each part.
fn feed_one<N: RunName, R: Wait, F: Feed>(
    rt: &R,
    alloc: Global,
    feed: &mut F,
    outlets: &mut [Outlet<'_, N>],
) -> Result<Feeding, NoMemory>
    requires outlets { AreOutlets N.log (F.rest feed.old) outlets.old }
    requires room { HaveRoom outlets.old }
    ensures outlets { IfOk result (λ _. AreOutlets N.log (F.rest feed.new) outlets.new) }
    ensures rings { IfOk result (λ _. rings_of outlets.new ≡ rings_of outlets.old) }
    ensures fed { IfOk result (λ f. f ≡ feeding.Fed →
        (length (F.rest feed.old) ≡ length (F.rest feed.new) + 1) × HaveRoom outlets.new) }
    ensures full { IfOk result (λ f. f ≡ feeding.Full → AreBehind outlets.new) }
    ensures ended { IfOk result (λ f. f ≡ feeding.Ended → (F.rest feed.new ≡ []) × AreWhole N.log outlets.new) }
    ensures few { IfOk result (λ _. length (F.rest feed.old) ≤ length (F.rest feed.new) + 1) }
{
    match feed.next()? {
        Some(fed) => {
            if append(rt, alloc, outlets, fed)? {
                return Ok(Feeding::Fed);
            }
            if offer_all(rt, alloc, outlets) {
                Ok(Feeding::Fed)
            } else {
                Ok(Feeding::Full)
            }
        }
        None => {
            if offer_all(rt, alloc, outlets) {
                Ok(Feeding::Ended)
            } else {
                Ok(Feeding::Full)
            }
        }
    }
}

/// Takes at most 64 records from the feed, and offers each in a chunk of 64 to the ring of its hart. Where a ring is
/// full, and at the end of the feed, it offers what the other parts have too.
///
/// # Errors
///
/// `NoMemory` where the feed answers it, or none is left for a part. Records may be lost then.
pub fn feed_on<N: RunName, R: Wait, F: Feed>(
    rt: &R,
    alloc: Global,
    feed: &mut F,
    outlets: &mut [Outlet<'_, N>],
) -> Result<Feeding, NoMemory>
    requires outlets { AreOutlets N.log (F.rest feed.old) outlets.old }
    ensures outlets { IfOk result (λ _. AreOutlets N.log (F.rest feed.new) outlets.new) }
    ensures rings { IfOk result (λ _. rings_of outlets.new ≡ rings_of outlets.old) }
    ensures fed { IfOk result (λ f. f ≡ feeding.Fed → length (F.rest feed.new) < length (F.rest feed.old)) }
    ensures full { IfOk result (λ f. f ≡ feeding.Full → AreBehind outlets.new) }
    ensures ended { IfOk result (λ f. f ≡ feeding.Ended → (F.rest feed.new ≡ []) × AreWhole N.log outlets.new) }
    ensures few { IfOk result (λ _. length (F.rest feed.old) ≤ length (F.rest feed.new) + PIECE_RECORDS) }
{
    if !make_room(rt, alloc, outlets) {
        return Ok(Feeding::Full);
    }
    for _ in 0..PIECE_RECORDS {
        match feed_one(rt, alloc, feed, outlets)? {
            Feeding::Fed => {}
            end => return Ok(end),
        }
    }
    Ok(Feeding::Fed)
}

//! Two harts at one table: what they see of each other, two lanes of one word in both orders, and two threads.
ghost use Rattle.std.specs.Prelude.{◌≡◌, ◌≢◌, ◌<◌, [], IfOk};
ghost use Rattle.order_core.specs.Course.{course, course_of, length_of};
ghost use Rattle.order_core.specs.Lawful.{IsLawful};
ghost use Rattle.guard_table.specs.Views.{first_view, fresh_view, wrote};
ghost use Rattle.guard_table.specs.Seats.{head_view, seat_view, IsHeadOf, IsSeatOf, AreLastWords};
ghost use Rattle.guard_table.specs.inner.TestPlans.{no_operations, two_lanes, two_words};

use crate::{GuardSeat, Head, Monitor, Put};
use order_core::Plan;
use pl_base::{NoMemory, Steps};
use std::alloc::Global;
use std::marker::Brand;
use std::sync::ledger::{Blank, Ledger};
use std::test::Fail;
use std::thread;
use std::thread::Threads;

// Two harts with one record each and no operations.
#[derive(Drop)]
struct NoOperations {
    ghost lawful: { ∥ IsLawful (course_of no_operations) ∥₁ },
}

impl Plan for NoOperations {
    ghost use Rattle.guard_table.specs.inner.TestPlans.{no_operations};

    ghost planned = { λ _. no_operations };

    fn harts(&self) -> u8 {
        2
    }

    fn block(&self) -> u8 {
        16
    }

    ghost lawful = { λ plan. plan.lawful };
}

// Two harts of which one writes lane 0 of word 9 and reads it, and the other writes lane 1.
#[derive(Drop)]
struct TwoLanes {
    ghost lawful: { ∥ IsLawful (course_of two_lanes) ∥₁ },
}

impl Plan for TwoLanes {
    ghost use Rattle.guard_table.specs.inner.TestPlans.{two_lanes};

    ghost planned = { λ _. two_lanes };

    fn harts(&self) -> u8 {
        2
    }

    fn block(&self) -> u8 {
        16
    }

    ghost lawful = { λ plan. plan.lawful };
}

// The seats of harts 0 and 1.
fn both_seats<P: Plan>(monitor: &Monitor<P>, head: &mut Head) -> (GuardSeat, GuardSeat)
    requires of { IsHeadOf P.planned monitor.now head.old }
    requires none { (head_view head.old).made ≡ [] }
    requires two { (P.planned monitor.now.plan).log.harts ≡ 2 }
    ensures of { IsHeadOf P.planned monitor.now head.new }
    ensures first_of { IsSeatOf P.planned monitor.now result.0 }
    ensures first { seat_view result.0 ≡ fresh_view 0 (head_view head.old) }
    ensures second_of { IsSeatOf P.planned monitor.now result.1 }
    ensures second { seat_view result.1 ≡ fresh_view 1 (head_view head.old) }
{
    let first = monitor.seat(head, 0);
    let second = monitor.seat(head, 1);
    (first, second)
}

// The last words, once both seats have ended.
fn last_words<P: Plan + Drop>(
    alloc: Global,
    monitor: Monitor<P>,
    mut head: Head,
    first: GuardSeat,
    second: GuardSeat,
) -> Result<Vec<u64>, NoMemory>
    requires two { (P.planned monitor.plan).log.harts ≡ 2 }
    requires of { IsHeadOf P.planned monitor head }
    requires first_of { IsSeatOf P.planned monitor first }
    requires first { (seat_view first).hart ≡ 0 }
    requires first_ended { (seat_view first).progress ≡ length_of (course P.planned monitor.plan) 0 }
    requires second_of { IsSeatOf P.planned monitor second }
    requires second { (seat_view second).hart ≡ 1 }
    requires second_ended { (seat_view second).progress ≡ length_of (course P.planned monitor.plan) 1 }
    ensures { IfOk result (λ words. AreLastWords (course P.planned monitor.plan) words.items) }
{
    monitor.give_back(&mut head, first);
    monitor.give_back(&mut head, second);
    match monitor.close(alloc, head) {
        Ok(words) => Ok(words),
        Err(_) => Err(NoMemory),
    }
}

#[test]
fn a_hart_sees_and_learns_what_another_has_advertised(rt: HostRuntime) -> Result<(), Fail> {
    let alloc = rt.alloc();
    let plan = NoOperations {};
    let (monitor, mut head) = Monitor::new(alloc, plan, Vec::from_array(alloc, [0; 9])?)?;
    let (mut first, mut second) = both_seats(&monitor, &mut head);
    assert_eq!(rt; monitor.seen(&mut second, 0), 0);
    monitor.advertise(&mut first, 1);
    assert_eq!(rt; monitor.seen(&mut second, 0), 1);
    let note = monitor.note(&mut first);
    assert_eq!(rt; (note.hart(), note.upto()), (0, 1));
    monitor.learn(&mut second, note);
    assert_eq!(rt; monitor.seen(&mut second, 0), 1);
    monitor.advertise(&mut second, 1);
    let words = last_words(alloc, monitor, head, first, second)?;
    assert_eq!(rt; words.as_slice(), [0, 1, 1, 0, 0, 0, 0, 0, 0].as_slice());
    Ok(())
}

// Hart 0 writes 7 where the lane holds 2.
fn write_low(monitor: &Monitor<TwoLanes>, seat: &mut GuardSeat)
    requires of { IsSeatOf (λ _. two_lanes) monitor.now seat.old }
    requires fresh { seat_view seat.old ≡ fresh_view 0 (first_view (course_of two_lanes)) }
    ensures of { IsSeatOf (λ _. two_lanes) monitor.now seat.new }
    ensures view { seat_view seat.new ≡ wrote (fresh_view 0 (first_view (course_of two_lanes))) }
{
    monitor.write(seat, 1, 0, 9, Put::Flip { bits: 2 ^ 7 });
}

// Hart 1 writes 3 where the lane holds 0.
fn write_high(monitor: &Monitor<TwoLanes>, seat: &mut GuardSeat)
    requires of { IsSeatOf (λ _. two_lanes) monitor.now seat.old }
    requires fresh { seat_view seat.old ≡ fresh_view 1 (first_view (course_of two_lanes)) }
    ensures of { IsSeatOf (λ _. two_lanes) monitor.now seat.new }
    ensures view { seat_view seat.new ≡ wrote (fresh_view 1 (first_view (course_of two_lanes))) }
{
    monitor.write(seat, 1, 0, 9, Put::Flip { bits: 0x3_0000 });
}

// Both write, in this order or the other.
fn write_both(
    monitor: &Monitor<TwoLanes>,
    low: &mut GuardSeat,
    high: &mut GuardSeat,
    is_low_first: bool,
)
    requires low_of { IsSeatOf (λ _. two_lanes) monitor.now low.old }
    requires low { seat_view low.old ≡ fresh_view 0 (first_view (course_of two_lanes)) }
    requires high_of { IsSeatOf (λ _. two_lanes) monitor.now high.old }
    requires high { seat_view high.old ≡ fresh_view 1 (first_view (course_of two_lanes)) }
    ensures low_of { IsSeatOf (λ _. two_lanes) monitor.now low.new }
    ensures low { seat_view low.new ≡ wrote (fresh_view 0 (first_view (course_of two_lanes))) }
    ensures high_of { IsSeatOf (λ _. two_lanes) monitor.now high.new }
    ensures high { seat_view high.new ≡ wrote (fresh_view 1 (first_view (course_of two_lanes))) }
{
    if is_low_first {
        write_low(monitor, low);
        write_high(monitor, high);
    } else {
        write_high(monitor, high);
        write_low(monitor, low);
    }
}

// What hart 0 reads after both have written, and the last word 9.
fn flipped<L: Ledger>(
    alloc: Global,
    blank: Blank,
    is_low_first: bool,
) -> Result<(u64, u64, Option<u64>), NoMemory>
    requires { (blank.name ≡ L.name) × (blank.parts ≡ L.parts) × (0 < blank.parts) }
{
    let plan = TwoLanes {};
    let words = Vec::from_array(alloc, [0, 0, 0, 0, 0, 0, 0, 0, 0, 0x5_0000_0002])?;
    let (monitor, mut head) = Monitor::new(alloc, plan, words)?;
    let (mut low, mut high) = both_seats(&monitor, &mut head);
    write_both(&monitor, &mut low, &mut high, is_low_first);
    monitor.advertise(&mut high, 1);
    let mut steps = Steps::<L>::new(blank);
    let late = monitor.read(&mut low, 1, 1, 9);
    let checked = monitor.check_read(&mut low, 1, 2, 9, &mut steps);
    monitor.advertise(&mut low, 1);
    let words = last_words(alloc, monitor, head, low, high)?;
    Ok((late, checked, words.get(9).copied()))
}

#[test]
fn two_harts_write_two_lanes_of_a_word_in_both_orders(rt: HostRuntime) -> Result<(), Fail> {
    let want = (0x5_0003_0007, 0x5_0003_0007, Some(0x5_0003_0007));
    assert_eq!(rt; flipped::<Brand>(rt.alloc(), Blank::new(1), true)?, want);
    assert_eq!(rt; flipped::<Brand>(rt.alloc(), Blank::new(1), false)?, want);
    Ok(())
}

// Two harts of which each counts to a number in a word of its own.
#[derive(Drop)]
struct TwoWords {
    count: u32,
    ghost few: { count < 4294967295 },
    ghost lawful: { ∥ IsLawful (course_of (two_words count)) ∥₁ },
}

impl Plan for TwoWords {
    ghost use Rattle.guard_table.specs.inner.TestPlans.{two_words};

    ghost planned = { λ plan. two_words plan.count };

    fn harts(&self) -> u8 {
        2
    }

    fn block(&self) -> u8 {
        16
    }

    ghost lawful = { λ plan. plan.lawful };
}

// A hart counts in its word, and looks at the other hart after each number.
fn count(monitor: &Monitor<TwoWords>, mut seat: GuardSeat, other: u8) -> GuardSeat
    requires of { IsSeatOf (λ plan. two_words plan.count) monitor.now seat }
    requires hart { (seat_view seat).hart < 2 }
    requires fresh { ((seat_view seat).written ≡ 0) × ((seat_view seat).progress ≡ 0) }
    requires other { (other < 2) × (other ≢ (seat_view seat).hart) }
    ensures of { IsSeatOf (λ plan. two_words plan.count) monitor.now result }
    ensures hart { (seat_view result).hart ≡ (seat_view seat).hart }
    ensures ended { (seat_view result).progress ≡ 1 }
{
    let word = 9 + seat.hart() as u32;
    for i in 0..monitor.plan.count {
        let value = i as u64 + 1;
        monitor.write(&mut seat, 1, i, word, Put::Store { value });
        monitor.seen(&mut seat, other);
    }
    monitor.advertise(&mut seat, 1);
    seat
}

// The last words, once two threads have counted beside each other.
fn counted<R: Threads + Sync>(rt: &R, alloc: Global, count_to: u32) -> Result<Vec<u64>, NoMemory>
    requires { count_to < 4294967295 }
{
    let plan = TwoWords { count: count_to };
    let (monitor, mut head) = Monitor::new(alloc, plan, Vec::from_array(alloc, [0; 11])?)?;
    let (first, second) = both_seats(&monitor, &mut head);
    let table = &monitor;
    let (first, second) = thread::join(
        rt,
        move || -> GuardSeat
            requires of { IsSeatOf (λ plan. two_words plan.count) table.now first }
            requires hart { (seat_view first).hart ≡ 0 }
            requires fresh { ((seat_view first).written ≡ 0) × ((seat_view first).progress ≡ 0) }
            ensures of { IsSeatOf (λ plan. two_words plan.count) table.entry.now result }
            ensures ended { ((seat_view result).hart ≡ 0) × ((seat_view result).progress ≡ 1) }
        { count(table, first, 1) },
        move || -> GuardSeat
            requires of { IsSeatOf (λ plan. two_words plan.count) table.now second }
            requires hart { (seat_view second).hart ≡ 1 }
            requires fresh { ((seat_view second).written ≡ 0) × ((seat_view second).progress ≡ 0) }
            ensures of { IsSeatOf (λ plan. two_words plan.count) table.entry.now result }
            ensures ended { ((seat_view result).hart ≡ 1) × ((seat_view result).progress ≡ 1) }
        { count(table, second, 0) },
    );
    last_words(alloc, monitor, head, first, second)
}

#[test]
fn two_threads_count_beside_each_other(rt: HostRuntime) -> Result<(), Fail> {
    let words = counted(&rt, rt.alloc(), 1000)?;
    assert_eq!(rt;
        words.as_slice(),
        [0, 1, 1, 0, 0, 0, 0, 0, 0, 1000, 1000].as_slice()
    );
    Ok(())
}

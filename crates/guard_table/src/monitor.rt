//! The calls on the table, in the order of use: new, the seats, the steps of a hart, and the end.
ghost use Rattle.std.specs.Prelude.{◌≡◌, ◌≢◌, ℕ, ◌+◌, ◌<◌, ◌≤◌, true, false, [], max, slice_index, IfOk, MatchResult};
ghost use Rattle.std.specs.List.{Contains};
ghost use Rattle.pl_base.specs.declared.layout.TheConstants.{MAX_HARTS};
ghost use Rattle.order_core.specs.declared.course.Operation.{Operation};
ghost use Rattle.order_core.specs.Lanes.{HasValueOf};
ghost use Rattle.order_core.specs.Course.{course, length_of};
ghost use Rattle.order_core.specs.Core.{IsPassed};
ghost use Rattle.guard_table.specs.Views.{first_view, made_seat, fresh_view, freed_seat, told_by, learnt_from};
ghost use Rattle.guard_table.specs.Views.{looked, advertised, wrote};
ghost use Rattle.guard_table.specs.Seats.{head_view, seat_view, note_view, IsHeadOf, IsSeatOf, IsNoteOf};
ghost use Rattle.guard_table.specs.Seats.{IsReadNow, IsWriteNow, AreLastWords};

use crate::put::Put;
use crate::rule::{Advertises, Learns, Reads, Seats, Sees, TakesBack, Tells, Writes};
use crate::seats::{CloseRefused, GuardSeat, Head, Monitor, Note};
use crate::view::View;
use atomic_table::{Seat, Table};
use order_core::Plan;
use pl_base::{NoMemory, Steps};
use std::alloc::Global;
use std::sync::ledger::Ledger;

impl<P: Plan + Drop> Monitor<P> {
    /// A table of the plan's opening words, and the head.
    pub fn new(alloc: Global, plan: P, words: Vec<u64>) -> Result<(Monitor<P>, Head), NoMemory>
        requires { words.items ≡ (P.planned plan).opening }
        ensures plan { IfOk result (λ r. r.0.plan ≡ plan) }
        ensures of { IfOk result (λ r. IsHeadOf P.planned r.0 r.1) }
        ensures head { IfOk result (λ r. head_view r.1 ≡ first_view (course P.planned plan)) }
    {
        let (table, seat) = Table::of_words(alloc, words.as_slice(), &plan)?;
        Ok((Monitor { table, plan }, Head { seat }))
    }
}

impl<P: Plan> Monitor<P> {
    /// How many harts the run has.
    pub fn harts(&self) -> u8
        ensures { result ≡ (P.planned self.now.plan).log.harts }
    {
        self.plan.harts()
    }

    /// How many bytes a block has by which the run's accesses are ordered.
    pub fn block(&self) -> u8
        ensures { result ≡ (P.planned self.now.plan).log.block }
    {
        self.plan.block()
    }

    // The seat of hart `HART`: what a split makes of a view may depend on types alone.
    fn make_seat<const HART: u8>(&self, head: &mut Head) -> Seat<(), View>
        requires of { IsHeadOf P.planned self.now head.old }
        requires eight { HART < MAX_HARTS }
        requires inside { HART < (P.planned self.now.plan).log.harts }
        requires once { Contains (head_view head.old).made HART → ⊥ }
        ensures of { IsHeadOf P.planned self.now head.new }
        ensures head { head_view head.new ≡ made_seat HART (head_view head.old) }
        ensures table { result.table_id ≡ self.now.table.shared.table_id }
        ensures seat { result.me ≡ (fresh_view HART (head_view head.old), []) }
    {
        self.table.shared.split_seat::<Seats<HART>>(&mut head.seat)
    }

    /// The seat of a hart of the run, which is made once.
    pub fn seat(&self, head: &mut Head, hart: u8) -> GuardSeat
        requires of { IsHeadOf P.planned self.now head.old }
        requires inside { hart < (P.planned self.now.plan).log.harts }
        requires once { Contains (head_view head.old).made hart → ⊥ }
        ensures of { IsHeadOf P.planned self.now head.new }
        ensures head { head_view head.new ≡ made_seat hart (head_view head.old) }
        ensures seat_of { IsSeatOf P.planned self.now result }
        ensures seat { seat_view result ≡ fresh_view hart (head_view head.old) }
    {
        let seat = match hart {
            0 => self.make_seat::<0>(head),
            1 => self.make_seat::<1>(head),
            2 => self.make_seat::<2>(head),
            3 => self.make_seat::<3>(head),
            4 => self.make_seat::<4>(head),
            5 => self.make_seat::<5>(head),
            6 => self.make_seat::<6>(head),
            7 => self.make_seat::<7>(head),
            _ => unreachable!(),
        };
        GuardSeat {
            seat,
            hart,
            progress: 0,
        }
    }

    /// Loads the progress word of hart `u`, another hart of the run: no less than what the seat saw or learnt of it.
    pub fn seen(&self, seat: &mut GuardSeat, u: u8) -> u64
        requires of { IsSeatOf P.planned self.now seat.old }
        requires inside { u < (P.planned self.now.plan).log.harts }
        requires other { u ≢ (seat_view seat.old).hart }
        ensures of { IsSeatOf P.planned self.now seat.new }
        ensures view { seat_view seat.new ≡ looked u result (seat_view seat.old) }
        ensures saw { slice_index (seat_view seat.old).seen u ≤ result }
        ensures learnt { slice_index (seat_view seat.old).learnt u ≤ result }
        ensures seen { slice_index (seat_view seat.new).seen u ≡ result }
        ensures looks { slice_index (seat_view seat.new).looks u ≡ slice_index (seat_view seat.old).looks u + 1 }
    {
        self.table
            .shared
            .load::<Sees>(&mut seat.seat, u as usize + 1)
    }

    /// A note of the seat's hart and its progress word.
    pub fn note(&self, seat: &mut GuardSeat) -> Note
        requires { IsSeatOf P.planned self.now seat.old }
        ensures of { IsSeatOf P.planned self.now seat.new }
        ensures view { seat_view seat.new ≡ seat_view seat.old }
        ensures note_of { IsNoteOf P.planned self.now result }
        ensures note { note_view result ≡ told_by (seat_view seat.old) }
    {
        let hart = seat.hart;
        let upto = seat.progress;
        let seat = self.table.shared.split_seat::<Tells>(&mut seat.seat);
        Note { seat, hart, upto }
    }

    /// The seat learns what the note tells of its hart.
    pub fn learn(&self, seat: &mut GuardSeat, note: Note)
        requires of { IsSeatOf P.planned self.now seat.old }
        requires note { IsNoteOf P.planned self.now note }
        ensures of { IsSeatOf P.planned self.now seat.new }
        ensures view { seat_view seat.new ≡ learnt_from (note_view note) (seat_view seat.old) }
        ensures learnt { let n = note_view note in
            slice_index (seat_view seat.new).learnt n.hart ≡
            max (slice_index (seat_view seat.old).learnt n.hart) n.progress }
    {
        let Note {
            seat: told,
            hart: _,
            upto: _,
        } = note;
        self.table.shared.join_seat::<Learns>(&mut seat.seat, told);
    }

    /// Stores the seat's own progress word, which does not fall: its hart has passed its records up to `upto`.
    pub fn advertise(&self, seat: &mut GuardSeat, upto: u64)
        requires of { IsSeatOf P.planned self.now seat.old }
        requires rises { (seat_view seat.old).progress ≤ upto }
        requires passed { let v = seat_view seat.old in
            IsPassed (course P.planned self.now.plan) v.written (slice_index v.seen) v.hart upto }
        ensures of { IsSeatOf P.planned self.now seat.new }
        ensures view { seat_view seat.new ≡ advertised upto (seat_view seat.old) }
    {
        self.table
            .shared
            .store::<Advertises>(&mut seat.seat, seat.hart as usize + 1, upto);
        seat.progress = upto;
    }

    /// The word, which has in the lanes of the read the value of the sequential run there. The read is operation `op`
    /// of the hart's record `number`, and no check read. It may be made late, again or never.
    pub fn read(&self, seat: &mut GuardSeat, number: u32, op: u32, word: u32) -> u64
        requires of { IsSeatOf P.planned self.now seat.old }
        requires may { let c = course P.planned self.now.plan in
            (p : ℕ) × (a : Operation) × IsReadNow c (seat_view seat.old) number op word false p a }
        ensures of { IsSeatOf P.planned self.now seat.new }
        ensures view { seat_view seat.new ≡ seat_view seat.old }
        ensures value { let c = course P.planned self.now.plan in
            (p : ℕ) (a : Operation) → IsReadNow c (seat_view seat.old) number op word false p a →
            HasValueOf a.what result }
    {
        self.table
            .shared
            .load::<Reads>(&mut seat.seat, word as usize)
    }

    /// The same for the read of a check. It counts one step.
    pub fn check_read<L: Ledger>(
        &self,
        seat: &mut GuardSeat,
        number: u32,
        op: u32,
        word: u32,
        steps: &mut Steps<L>,
    ) -> u64
        requires of { IsSeatOf P.planned self.now seat.old }
        requires may { let c = course P.planned self.now.plan in
            (p : ℕ) × (a : Operation) × IsReadNow c (seat_view seat.old) number op word true p a }
        ensures of { IsSeatOf P.planned self.now seat.new }
        ensures view { seat_view seat.new ≡ seat_view seat.old }
        ensures value { let c = course P.planned self.now.plan in
            (p : ℕ) (a : Operation) → IsReadNow c (seat_view seat.old) number op word true p a →
            HasValueOf a.what result }
        ensures steps { steps.new ≡ steps.old + 1 }
    {
        steps.tick();
        self.table
            .shared
            .load::<Reads>(&mut seat.seat, word as usize)
    }

    /// Performs the hart's next write, which is operation `op` of its record `number`.
    pub fn write(&self, seat: &mut GuardSeat, number: u32, op: u32, word: u32, put: Put)
        requires of { IsSeatOf P.planned self.now seat.old }
        requires may { let c = course P.planned self.now.plan in
            (p : ℕ) × (a : Operation) × IsWriteNow c (seat_view seat.old) number op word put p a }
        ensures of { IsSeatOf P.planned self.now seat.new }
        ensures view { seat_view seat.new ≡ wrote (seat_view seat.old) }
    {
        let table = &self.table.shared;
        match put {
            Put::Store { value } => table.store::<Writes>(&mut seat.seat, word as usize, value),
            Put::Flip { bits } => {
                table.fetch_xor::<Writes>(&mut seat.seat, word as usize, bits);
            }
        }
    }

    /// The head takes back the seat of a hart that has advertised all its records.
    pub fn give_back(&self, head: &mut Head, seat: GuardSeat)
        requires of { IsHeadOf P.planned self.now head.old }
        requires seat { IsSeatOf P.planned self.now seat }
        requires ended { let v = seat_view seat in
            v.progress ≡ length_of (course P.planned self.now.plan) v.hart }
        ensures of { IsHeadOf P.planned self.now head.new }
        ensures head { head_view head.new ≡ freed_seat (seat_view seat).hart (head_view head.old) }
    {
        let GuardSeat {
            seat: freed,
            hart: _,
            progress: _,
        } = seat;
        self.table
            .shared
            .join_seat::<TakesBack>(&mut head.seat, freed);
    }
}

impl<P: Plan + Drop> Monitor<P> {
    /// The last words of the run, where the head has taken back the seats of all harts.
    pub fn close(self, alloc: Global, head: Head) -> Result<Vec<u64>, CloseRefused<P>>
        requires of { IsHeadOf P.planned self head }
        requires freed { (h : ℕ) → h < (P.planned self.plan).log.harts → Contains (head_view head).freed h }
        ensures { MatchResult result
            (λ words. AreLastWords (course P.planned self.plan) words.items)
            (λ refused. (refused.monitor ≡ self) × (refused.head ≡ head)) }
    {
        let Ok(mut words) = Vec::with_capacity(alloc, self.table.word_count()) else {
            return Err(CloseRefused {
                monitor: self,
                head,
            });
        };
        let Monitor { table, plan: _ } = self;
        let Head { seat } = head;
        let closed = table.close_with(seat);
        for i in 0..closed.words.len() {
            words.push_reserved(closed.word(i));
        }
        closed.free();
        Ok(words)
    }
}

impl GuardSeat {
    /// The hart whose seat it is.
    pub fn hart(&self) -> u8
        ensures hart { result ≡ (seat_view self.now).hart }
        ensures inside { result < (seat_view self.now).course.log.harts }
    {
        self.hart
    }
}

impl Note {
    /// The hart that it tells of.
    pub fn hart(&self) -> u8
        ensures hart { result ≡ (note_view self.now).hart }
        ensures inside { result < (note_view self.now).course.log.harts }
    {
        self.hart
    }

    /// The progress word that the hart had.
    pub fn upto(&self) -> u64
        ensures { result ≡ (note_view self.now).progress }
    {
        self.upto
    }
}

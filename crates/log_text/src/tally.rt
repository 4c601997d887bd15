//! What the rules ask of the lines so far.
use crate::page_set::PageSet;
use pl_event::{Kind, PageRun, Point, Record, record_hart};
use std::alloc::{AllocError, Global};

/// What the rules ask of the lines so far: a line is judged without a look back.
#[derive(Drop)]
pub struct Tally {
    pub harts: u8,
    /// The page after the last run of pages.
    pub next_page: u32,
    /// Which pages are mapped.
    pub pages: PageSet,
    /// How many records there are.
    pub records: u32,
    /// How many records each hart has.
    pub numbers: [u32; 8],
    /// Which harts have ended.
    pub ended: [bool; 8],
    /// For each hart the record that its last record is a notice of, if it is one.
    pub notices: [Option<Point>; 8],
    /// For each hart the highest number of a record of it that a notice has named.
    pub named: [u32; 8],
}

impl Tally {
    ghost use Rattle.std.specs.Prelude.{◌≡◌, ◌<◌, ◌≤◌, ◌+◌, List, [], ◌∷◌, ◌++◌, ℕ, None, IfOk};
    ghost use Rattle.pl_event.specs.declared.log.Point.{Point};
    ghost use Rattle.log_grammar.specs.Spelling.{Entry, page, row};
    ghost use Rattle.log_text.specs.Tally.{Keeps, AddsKind};
    ghost use Rattle.log_text.specs.WellFormed.{broken};

    /// No line yet, of a run of 1 to 8 harts.
    pub fn new(alloc: Global, harts: u8) -> Result<Tally, AllocError>
        requires some { 1 ≤ harts }
        requires few { harts ≤ 8 }
        ensures { IfOk result (λ tally. Keeps tally [] × (tally.harts ≡ harts)) }
    {
        Ok(Tally {
            harts,
            next_page: 0,
            pages: PageSet::new(alloc)?,
            records: 0,
            numbers: [0; 8],
            ended: [false; 8],
            notices: [None; 8],
            named: [0; 8],
        })
    }

    /// A run of pages, which breaks no rule.
    pub fn add_page(&mut self, run: PageRun)
        ensures harts { self.new.harts ≡ self.old.harts }
        ensures keeps { (before : List Entry) → Keeps self.old before →
            broken self.old.harts before (page run) ≡ None → Keeps self.new (before ++ page run ∷ []) }
    {
        self.pages.mark(run.first, run.count, true);
        self.next_page = u32::from(run.first) + u32::from(run.count);
    }

    /// A record, which breaks no rule. Its arcs leave no trace.
    #[inline(always)]
    pub fn add_row(&mut self, what: Record)
        ensures harts { self.new.harts ≡ self.old.harts }
        ensures keeps { (before : List Entry) (arcs : List Point) → Keeps self.old before →
            broken self.old.harts before (row what arcs) ≡ None
            → Keeps self.new (before ++ row what arcs ∷ []) }
    {
        let at = usize::from(record_hart(&what) % 8);
        self.records = self.records.wrapping_add(1);
        self.numbers[at] = self.numbers[at].wrapping_add(1);
        match what {
            Record::Event(event) => {
                self.notices[at] = None;
                self.add_kind(at, event.kind);
            }
            Record::Notice { of, .. } => {
                self.notices[at] = Some(of);
                let to = usize::from(of.hart % 8);
                self.named[to] = self.named[to].max(of.number);
            }
        }
    }

    #[inline(always)]
    fn add_kind(&mut self, at: usize, kind: Kind)
        requires { at < 8 }
        ensures { AddsKind self.old at kind self.new }
    {
        match kind {
            Kind::Ex | Kind::Ft { .. } => self.ended[at] = true,
            Kind::Mp { page, count } => self.pages.mark(page, count, true),
            Kind::Um { page, count } => self.pages.mark(page, count, false),
            _ => {}
        }
    }
}

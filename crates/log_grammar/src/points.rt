//! The arcs of a line, gathered as they are read.
ghost use Rattle.std.specs.Prelude.{◌≡◌, ◌++◌, ◌∷◌, [], ◌≤◌};

use pl_event::{Arcs, Point, some_number};

/// The arcs of a line as they were read, and what the rules ask of them.
#[derive(Clone, Copy)]
pub struct ArcList {
    /// For each hart the number of the record that its arc is from, and 0 for no arc, as far as the harts rise and are
    /// below 8.
    pub numbers: [u32; 8],
    /// The highest hart that is named.
    pub highest: u8,
    /// The least hart that can follow.
    pub next: u8,
    /// Whether the harts rise strictly.
    pub rising: bool,
}

impl ArcList {
    ghost use Rattle.std.specs.Prelude.{List, ◌<◌};
    ghost use Rattle.pl_event.specs.declared.log.Point.{Point};
    ghost use Rattle.log_grammar.specs.Arcs.{Sums, arcs_in};

    /// No arc.
    #[inline]
    pub fn new() -> ArcList
        ensures { Sums result [] }
    {
        ArcList {
            numbers: [0; 8],
            highest: 0,
            next: 0,
            rising: true,
        }
    }

    /// The arcs of a line that keeps the rules.
    pub fn arcs(&self) -> Arcs
        ensures { result ≡ arcs_in self.now.numbers }
    {
        let mut arcs = Arcs::none();
        'harts: for hart in 0..8u8 {
            arcs.set(hart, some_number(self.numbers[usize::from(hart)]));
        }
        arcs
    }

    /// One more arc after those so far.
    #[inline]
    pub fn add(&mut self, point: Point)
        requires hart { point.hart ≤ 9 }
        requires some { 1 ≤ point.number }
        ensures { (points : List Point) → Sums self.old points → Sums self.new (points ++ point ∷ []) }
    {
        let hart = point.hart;
        self.rising = self.rising & (self.next <= hart);
        self.highest = self.highest.max(hart);
        self.next = hart + 1;
        if self.rising & (hart < 8) {
            self.numbers[usize::from(hart)] = point.number;
        }
    }
}

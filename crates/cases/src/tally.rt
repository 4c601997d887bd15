//! The number of rows, and of those that differ.

/// How many rows were played, and how many of them came to something else than they say.
#[derive(Clone, Copy)]
pub struct Tally {
    pub rows: u32,
    pub differ: u32,
}

impl Tally {
    ghost use Rattle.std.specs.Prelude.{◌≡◌, if◌then◌else◌};
    ghost use Rattle.cases.specs.Tally.{one_more};

    /// No row yet.
    pub fn new() -> Tally
        ensures { result ≡ record { rows = 0; differ = 0 } }
    {
        Tally { rows: 0, differ: 0 }
    }

    /// One more row, which came to what it says or not.
    pub fn count(&mut self, as_said: bool)
        ensures rows { self.new.rows ≡ one_more self.old.rows }
        ensures differ { self.new.differ ≡ (if as_said then self.old.differ else one_more self.old.differ) }
    {
        self.rows = self.rows.saturating_add(1);
        if !as_said {
            self.differ = self.differ.saturating_add(1);
        }
    }
}

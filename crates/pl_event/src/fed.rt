//! A line as a worker takes it, and where such lines come from.
ghost use Rattle.std.specs.Prelude.{◌≡◌, [], ◌∷◌, List, IfOk, OnErr, MatchOption};

use crate::log::{Arcs, Line};
use pl_base::NoMemory;

/// A line as a worker takes it.
#[derive(Clone, Copy, Debug, PartialEq, Eq)]
pub struct Fed {
    /// How many events the run has up to this one, itself included; 0 for a notice.
    pub place: u32,
    /// How many of these are of its hart; 0 for a notice.
    pub event_number: u32,
    pub line: Line,
    /// For each other hart the last record that has to come before: the source of the arc, the notice of an alert
    /// event there, or the event whose notice is the record of its hart before this one.
    pub needs: Arcs,
}

/// Lines of a run still to come.
pub trait Feed {
    ghost use Rattle.pl_event.specs.declared.fed.Fed.{Fed};

    /// The lines still to come, each as in the log of the run.
    ghost rest: { Self → List Fed };

    /// The first of these, or none where none is left. Without memory nothing is taken.
    fn next(&mut self) -> Result<Option<Fed>, NoMemory>
        ensures ok { IfOk result (λ fed. MatchOption fed
            ((rest self.old ≡ []) × (rest self.new ≡ []))
            (λ first. rest self.old ≡ first ∷ rest self.new)) }
        ensures err { OnErr result (rest self.new ≡ rest self.old) };
}

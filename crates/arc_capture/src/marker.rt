//! The arcs of placed lines, line by line.
ghost use Rattle.std.specs.Prelude.{◌≡◌, ℕ, ◌≤◌, [], ◌∷◌, ◌++◌, List, length, IfOk, OnOk};
ghost use Rattle.pl_base.specs.declared.layout.TheConstants.{MAX_HARTS};
ghost use Rattle.pl_event.specs.declared.log.Line.{Line};
ghost use Rattle.pl_event.specs.Runs.{IsBlockSize};

use crate::capture::Capture;
use arc_reduce::Reducer;
use pl_base::NoMemory;
use pl_event::Line;
use std::alloc::Global;

/// A capture and a reducer of the same lines.
#[derive(Drop)]
pub struct Marker {
    capture: Capture,
    reducer: Reducer,
}

impl Marker {
    ghost use Rattle.arc_capture.specs.Marker.{HasMarked, MayMark};
    ghost use Rattle.arc_capture.specs.Recorder.{MayMarkAll};

    /// Of no line.
    pub fn new(alloc: Global, harts: u8, block: u8) -> Result<Marker, NoMemory>
        requires harts { harts ≤ MAX_HARTS }
        requires block { IsBlockSize block }
        ensures { IfOk result (λ marker. (marker.reducer.harts ≡ harts) × HasMarked marker block [] []) }
    {
        Ok(Marker {
            capture: Capture::new(alloc, harts, block)?,
            reducer: Reducer::new(alloc, harts)?,
        })
    }

    /// The next placed line with its arcs. Without memory nothing is said of the marker any more.
    pub fn mark(&mut self, line: &Line) -> Result<Line, NoMemory>
        requires { (size : ℕ) × (base : List Line) × (lines : List Line) × MayMark self.old size base lines line.now }
        ensures ok { (size : ℕ) (base lines : List Line) → MayMark self.old size base lines line.now →
            IfOk result (λ marked. HasMarked self.new size (base ++ line.now ∷ []) (lines ++ marked ∷ [])) }
        ensures harts { self.new.reducer.harts ≡ self.old.reducer.harts }
    {
        let taken = self.capture.take(line)?;
        let found = taken.eight();
        let kept = self.reducer.keep(line, &found)?;
        let arcs = kept.eight();
        Ok(Line {
            what: line.what,
            arcs,
        })
    }

    /// The next placed lines with their arcs, as `mark` gives them, in place of what `marked` held.
    pub fn mark_into(&mut self, more: &[Line], marked: &mut Vec<Line>) -> Result<(), NoMemory>
        requires { (size : ℕ) × (base : List Line) × (lines : List Line)
            × MayMarkAll self.old size base lines more.now }
        ensures ok { (size : ℕ) (base lines : List Line) → MayMarkAll self.old size base lines more.now →
            OnOk result (HasMarked self.new size (base ++ more.now) (lines ++ marked.new.items)) }
        ensures harts { self.new.reducer.harts ≡ self.old.reducer.harts }
    {
        marked.clear();
        for at in 0..more.len() {
            let line = self.mark(&more[at])?;
            marked.push(line)?;
        }
        Ok(())
    }
}

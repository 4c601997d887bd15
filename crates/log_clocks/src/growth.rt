//! What clocks and last accesses tell of a log that grows.
ghost use Rattle.std.specs.Prelude.{ℕ, ◌+◌, [], ◌∷◌, ◌++◌, List, length};
ghost use Rattle.pl_event.specs.declared.log.Line.{Line};
ghost use Rattle.pl_event.specs.Edges.{IsFlow};
ghost use Rattle.log_clocks.specs.declared.clocks.Clocks.{Clocks};
ghost use Rattle.log_clocks.specs.declared.lasts.LastAccesses.{LastAccesses};
ghost use Rattle.log_clocks.specs.Clocks.{HasClocks, HasSameClocks};
ghost use Rattle.log_clocks.specs.LastAccesses.{HasLast, HasSameTable, IsNoAccess};

/// The clocks and the last accesses of all lines of a log are those of the first lines of each log that begins with
/// them, so both serve a log that is recorded. A line that neither loads nor stores changes no last access. What was
/// told before a call without memory is told after it.
pub fn grown_tables()
    ensures clocks { (harts : ℕ) (lines more : List Line) (clocks : Clocks) → IsFlow harts (lines ++ more) →
        HasClocks clocks lines (length lines) → HasClocks clocks (lines ++ more) (length lines) }
    ensures lasts { (lines more : List Line) (lasts : LastAccesses) (size : ℕ) →
        HasLast lasts size lines (length lines) → HasLast lasts size (lines ++ more) (length lines) }
    ensures passed { (lines : List Line) (line : Line) (lasts : LastAccesses) (size : ℕ) → IsNoAccess size line →
        HasLast lasts size lines (length lines) → HasLast lasts size (lines ++ line ∷ []) (length lines + 1) }
    ensures same_clocks { (lines : List Line) (i : ℕ) (old new : Clocks) → HasSameClocks old new →
        HasClocks old lines i → HasClocks new lines i }
    ensures same_lasts { (lines : List Line) (size i : ℕ) (old new : LastAccesses) → HasSameTable old new →
        HasLast old size lines i → HasLast new size lines i }
{}

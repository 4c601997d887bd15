//! Records that reach no memory, notices, and alert events.
ghost use Rattle.std.specs.Prelude.{◌≡◌, ◌≢◌, ℕ, ◌+◌, ◌<◌, ◌≤◌, ◌++◌, true, false, List, [], ◌∷◌, None, length, slice_get};
ghost use Rattle.pl_base.specs.declared.layout.TheConstants.{REGISTERS};
ghost use Rattle.pl_base.specs.declared.widths.FaultCause.{FaultCause};
ghost use Rattle.pl_event.specs.declared.event.Kind.{Kind};
ghost use Rattle.pl_event.specs.declared.event.Kind.TheVariants.{Op, Mv, Im, Br, Jr, Bf, Ex, Ft};
ghost use Rattle.pl_event.specs.declared.log.Line.{Line};
ghost use Rattle.pl_event.specs.declared.log.Point.{Point};
ghost use Rattle.pl_event.specs.declared.log.Record.TheVariants as entry;
ghost use Rattle.pl_event.specs.Alerts.{is_alert_kind};
ghost use Rattle.pl_event.specs.Records.{IsRecord};
ghost use Rattle.lifeguard.specs.declared.guard.Name.TheVariants as name;
ghost use Rattle.lifeguard.specs.declared.report.Report.{Report};
ghost use Rattle.order_core.specs.Core.{IsNextWrite};
ghost use Rattle.order_core.specs.Course.{course_of, operation_of};
ghost use Rattle.order_core.specs.Shapes.{Shape, after_shapes, filled_op};
ghost use Rattle.order_core.specs.Turns.{HasComeTo};
ghost use Rattle.guard_table.specs.declared.view.View.{View};
ghost use Rattle.guard_table.specs.Views.{known_core, wrote};
ghost use Rattle.idem_filter.specs.Filter as filter;
ghost use Rattle.inherit_track.specs.declared.state.Held.{Held};
ghost use Rattle.inherit_track.specs.declared.state.RegState.TheVariants as reg;
ghost use Rattle.inherit_track.specs.States.{with_state};
ghost use Rattle.meta_lookaside.specs.LookAside as look;
ghost use Rattle.worker_laws.specs.Runs.{IsKind, IsRun, Run, before, reports_before, shapes_at, size};
ghost use Rattle.worker_laws.specs.Reads.{MayReadNow};
ghost use Rattle.worker_laws.specs.Kept.{HoldsNothing, IsReady, Kept, Parts};

/// A record that reaches no memory: its register takes its new state, and nothing else changes but the reports.
pub fn plain_records_keep()
    ensures copy { (p : Run) (h n rd rs : ℕ) (v : View) (parts : Parts) (after : List Report)
        → IsReady p h v n parts → after ≡ reports_before p h (n + 1 + 1) → rs < REGISTERS
        → IsKind p h (n + 1) (Mv rd rs)
        → Kept p h v (n + 1)
        (record parts { states = with_state parts.states rd (parts.states rs); reports = after }) }
    ensures join { (p : Run) (h n rd r1 r2 a b : ℕ) (v : View) (parts : Parts) (after : List Report)
        → IsReady p h v n parts → after ≡ reports_before p h (n + 1 + 1) → r1 < REGISTERS → r2 < REGISTERS
        → parts.states r1 ≡ reg.Known a → parts.states r2 ≡ reg.Known b → IsKind p h (n + 1) (Op rd r1 r2)
        → Kept p h v (n + 1)
        (record parts { states = with_state parts.states rd (reg.Known (p.rules.joins a b)); reports = after }) }
    ensures clear { (p : Run) (h n rd r1 r2 : ℕ) (v : View) (parts : Parts) (after : List Report)
        → IsReady p h v n parts → after ≡ reports_before p h (n + 1 + 1) → p.rules.name ≡ name.Addr
        → IsKind p h (n + 1) (Op rd r1 r2)
        → Kept p h v (n + 1) (record parts { states = with_state parts.states rd (reg.Known 0); reports = after }) }
    ensures constant { (p : Run) (h n rd : ℕ) (v : View) (parts : Parts) (after : List Report)
        → IsReady p h v n parts → after ≡ reports_before p h (n + 1 + 1) → IsKind p h (n + 1) (Im rd)
        → Kept p h v (n + 1) (record parts { states = with_state parts.states rd (reg.Known 0); reports = after }) }
    ensures jump { (p : Run) (h n rd rs : ℕ) (v : View) (parts : Parts) (after : List Report)
        → IsReady p h v n parts → after ≡ reports_before p h (n + 1 + 1) → IsKind p h (n + 1) (Jr rd rs)
        → Kept p h v (n + 1) (record parts { states = with_state parts.states rd (reg.Known 0); reports = after }) }
    ensures bad_free { (p : Run) (h n addr : ℕ) (v : View) (parts : Parts) (after : List Report)
        → IsReady p h v n parts → after ≡ reports_before p h (n + 1 + 1) → IsKind p h (n + 1) (Bf addr)
        → Kept p h v (n + 1) (record parts { states = with_state parts.states 10 (reg.Known 0); reports = after }) }
    ensures branch { (p : Run) (h n r1 r2 : ℕ) (v : View) (parts : Parts) (after : List Report)
        → IsReady p h v n parts → after ≡ reports_before p h (n + 1 + 1) → IsKind p h (n + 1) (Br r1 r2)
        → Kept p h v (n + 1) (record parts { reports = after }) }
    ensures exit { (p : Run) (h n : ℕ) (v : View) (parts : Parts) (after : List Report)
        → IsReady p h v n parts → after ≡ reports_before p h (n + 1 + 1) → IsKind p h (n + 1) Ex
        → Kept p h v (n + 1) (record parts { reports = after }) }
    ensures fault { (p : Run) (h n addr : ℕ) (cause : FaultCause) (v : View) (parts : Parts) (after : List Report)
        → IsReady p h v n parts → after ≡ reports_before p h (n + 1 + 1) → IsKind p h (n + 1) (Ft cause addr)
        → Kept p h v (n + 1) (record parts { reports = after }) }
{}

/// At a notice nothing may be held, and look-aside and filter are emptied.
pub fn notices_keep()
    ensures { (p : Run) (h n i hart : ℕ) (line : Line) (point : Point) (v : View) (parts : Parts)
        → IsReady p h v n parts → IsRecord p.plan.log.lines i h (n + 1) line → line.what ≡ entry.Notice hart point
        → HoldsNothing parts → Kept p h v (n + 1) (record parts { look = look.empty; slots = filter.empty }) }
{}

/// At an alert event nothing may be held. After its last operation, by the view w, look-aside and filter are emptied,
/// and register 10 has the answer's mask, which is clear.
pub fn alert_events_keep()
    ensures { (p : Run) (h n i : ℕ) (kind : Kind) (v w : View) (parts : Parts) (after : List Report)
        → IsReady p h v n parts → after ≡ reports_before p h (n + 1 + 1) → IsKind p h (n + 1) kind
        → is_alert_kind kind ≡ true → HoldsNothing parts → n + 1 ≤ w.progress + 64 → i < 4294967295
        → HasComeTo (course_of p.plan) (known_core w) h (n + 1) i
        → slice_get (p.plan.operations h (n + 1)) i ≡ None
        → Kept p h w (n + 1) (record parts {
          states = with_state parts.states 10 (reg.Known 0);
          look = look.empty;
          slots = filter.empty;
          reports = after;
        }) }
{}

/// A record with many operations: a hart that may take it comes to the first one. Where it has made some, and has come
/// to the next one, it may make that from the words that the others leave, and comes to the one after it.
pub fn long_records()
    ensures first { (p : Run) (h n : ℕ) (v : View) (parts : Parts) → IsReady p h v n parts
        → HasComeTo (course_of p.plan) (known_core v) h (n + 1) 0 }
    ensures read { (p : Run) → IsRun p → (h m : ℕ) (kind : Kind) → 1 ≤ m → m ≤ size p h → IsKind p h m kind
        → (v : View) (done rest : List Shape) (s : Shape) → shapes_at p h m kind ≡ done ++ s ∷ rest
        → HasComeTo (course_of p.plan) (known_core v) h m (length done) → s.write ≡ false
        → MayReadNow p h v m (length done) (filled_op (after_shapes (before p h m).words done s.word) s) }
    ensures after_read { (p : Run) → IsRun p → (h m : ℕ) (kind : Kind) → 1 ≤ m → m ≤ size p h → IsKind p h m kind
        → (v : View) (done rest : List Shape) (s : Shape) → shapes_at p h m kind ≡ done ++ s ∷ rest
        → HasComeTo (course_of p.plan) (known_core v) h m (length done) → s.write ≡ false
        → HasComeTo (course_of p.plan) (known_core v) h m (length (done ++ s ∷ [])) }
    ensures write { (p : Run) → IsRun p → (h m : ℕ) (kind : Kind) → 1 ≤ m → m ≤ size p h → IsKind p h m kind
        → (v : View) (done rest : List Shape) (s : Shape) → shapes_at p h m kind ≡ done ++ s ∷ rest
        → HasComeTo (course_of p.plan) (known_core v) h m (length done) → s.write ≡ true
        → let o = filled_op (after_shapes (before p h m).words done s.word) s in
        (q : ℕ) × IsNextWrite (course_of p.plan) (known_core v) h q (operation_of h m (length done) o) }
    ensures after_write { (p : Run) → IsRun p → (h m : ℕ) (kind : Kind) → 1 ≤ m → m ≤ size p h → IsKind p h m kind
        → (v : View) (done rest : List Shape) (s : Shape) → shapes_at p h m kind ≡ done ++ s ∷ rest
        → HasComeTo (course_of p.plan) (known_core v) h m (length done) → s.write ≡ true
        → HasComeTo (course_of p.plan) (known_core (wrote v)) h m (length (done ++ s ∷ [])) }
    ensures last { (p : Run) → IsRun p → (h m : ℕ) (kind : Kind) → 1 ≤ m → m ≤ size p h → IsKind p h m kind
        → slice_get (p.plan.operations h m) (length (shapes_at p h m kind)) ≡ None }
{}

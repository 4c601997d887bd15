//! Runs, and how a worker begins, is fed and ends.
ghost use Rattle.std.specs.Prelude.{◌≡◌, ℕ, ◌+◌, ◌%◌, ◌<◌, ◌≤◌, ◌++◌, List, Some, length, slice_get};
ghost use Rattle.pl_base.specs.declared.layout.TheConstants.{MEMORY_BYTES, REGISTERS, SMALL_BLOCK_BYTES};
ghost use Rattle.pl_event.specs.declared.event.Event.{Event};
ghost use Rattle.pl_event.specs.declared.event.Kind.{Kind};
ghost use Rattle.pl_event.specs.declared.fed.Fed.{Fed};
ghost use Rattle.pl_event.specs.declared.log.Line.{Line};
ghost use Rattle.pl_event.specs.declared.log.Log.{Log};
ghost use Rattle.pl_event.specs.declared.log.Record.TheVariants as entry;
ghost use Rattle.pl_event.specs.Feeds.{fed_at};
ghost use Rattle.pl_event.specs.Numbers.{events_of};
ghost use Rattle.pl_event.specs.Records.{IsRecord};
ghost use Rattle.lifeguard.specs.declared.report.EventPlace.{EventPlace};
ghost use Rattle.lifeguard.specs.Plain.{plain_result, reports_of};
ghost use Rattle.lifeguard.specs.Ranges.{reports_on};
ghost use Rattle.lifeguard.specs.Rules.{Rules, KeepsLaws};
ghost use Rattle.order_core.specs.Course.{course_of};
ghost use Rattle.order_core.specs.Lawful.{IsLawful};
ghost use Rattle.idem_filter.specs.declared.filter.Check.{Check};
ghost use Rattle.inherit_track.specs.declared.state.RegState.TheVariants as reg;
ghost use Rattle.guard_table.specs.declared.view.View.{View};
ghost use Rattle.log_plan.specs.Plans.{plan_of};
ghost use Rattle.turn_worker.specs.Results.{checks_of};
ghost use Rattle.worker_laws.specs.Runs.{IsKind, IsRun, Run, before, reach_of, reports_before, size};
ghost use Rattle.worker_laws.specs.LogRuns.{log_run};
ghost use Rattle.worker_laws.specs.Kept.{HasFed, Kept, Parts, first_parts};

/// The plan of a log, where it is lawful, and the plain run of the log make a run.
pub fn plan_is_run()
    ensures { (rules : Rules) (log : Log) → KeepsLaws rules → ∥ IsLawful (course_of (plan_of rules log)) ∥₁
        → IsRun (log_run rules log) }
{}

/// A worker begins with clear registers, empty slots and no report. After all records of its hart its reports and its
/// number of checks are the plain ones, and so is each mask that is known.
pub fn workers_begin_and_end()
    ensures begins { (p : Run) → IsRun p → (h : ℕ) (v : View) → v.written ≡ 0 → v.progress ≡ 0
        → Kept p h v 0 first_parts }
    ensures reports { (p : Run) → IsRun p → (h : ℕ) (v : View) (parts : Parts) → Kept p h v (size p h) parts
        → parts.reports
        ≡ reports_on h (plain_result p.rules p.plan.log.pages (events_of p.plan.log.lines)).reports }
    ensures masks { (p : Run) → IsRun p → (h : ℕ) (v : View) (parts : Parts) → Kept p h v (size p h) parts
        → (r mask : ℕ) → r < REGISTERS → parts.states r ≡ reg.Known mask
        → mask ≡ (plain_result p.rules p.plan.log.pages (events_of p.plan.log.lines)).masks h r }
    ensures checks { (p : Run) → IsRun p → (h : ℕ) (v : View) (parts : Parts) → Kept p h v (size p h) parts
        → parts.checks ≡ checks_of p.rules h p.plan.log.lines }
{}

/// The records that were fed are the first ones of the hart. The reports of an event follow those of the hart's records
/// before it, and a load or a store is inside memory and inside four bytes.
pub fn fed_records()
    ensures record { (p : Run) (h : ℕ) (fed : List Fed) → HasFed p h fed → (n : ℕ) → n < length fed
        → (i : ℕ) × (line : Line) × IsRecord p.plan.log.lines i h (n + 1) line
        × (slice_get fed n ≡ Some (fed_at p.plan.log.lines i line)) }
    ensures within { (p : Run) (h : ℕ) (fed : List Fed) → HasFed p h fed → (n : ℕ) → n < length fed
        → n + 1 ≤ size p h }
    ensures kind { (p : Run) (i h m : ℕ) (line : Line) (event : Event) → IsRecord p.plan.log.lines i h m line
        → line.what ≡ entry.Event event → IsKind p h m event.kind }
    ensures reports { (p : Run) → IsRun p → (i h m : ℕ) (line : Line) (event : Event)
        → IsRecord p.plan.log.lines i h m line → line.what ≡ entry.Event event
        → let fed = fed_at p.plan.log.lines i line in
        let place : EventPlace = record { place = fed.place; hart = h; number = fed.event_number } in
        reports_before p h (m + 1)
        ≡ reports_before p h m ++ reports_of p.rules place event.kind (before p h m).state }
    ensures near { (p : Run) → IsRun p → (h m : ℕ) (kind : Kind) (c : Check) → IsKind p h m kind
        → reach_of kind ≡ Some c
        → (c.addr < MEMORY_BYTES) × (c.addr % SMALL_BLOCK_BYTES + c.width ≤ SMALL_BLOCK_BYTES) }
{}

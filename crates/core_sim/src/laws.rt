//! That a job has one run, and that each event of a run may follow those before it.
ghost use Rattle.std.specs.Prelude.{◌≡◌, ◌∷◌, [], ℕ, ◌≤◌, List, Some, length, take, slice_get};
ghost use Rattle.pl_base.specs.declared.layout.TheConstants.{MAX_MAPPED_PAGES};
ghost use Rattle.pl_event.specs.declared.event.Event.{Event};
ghost use Rattle.pl_event.specs.OpeningPages.{RiseFrom, pages_in};
ghost use Rattle.core_sim.specs.declared.group.TheConstants.{MAX_EVENTS};
ghost use Rattle.core_sim.specs.declared.job.Job.{Job};
ghost use Rattle.core_sim.specs.Entries.{Entry};
ghost use Rattle.core_sim.specs.RunEvents.{events_of_entry, events_of_run, MayFollow, AllFollow};
ghost use Rattle.core_sim.specs.Runs.{IsPrefix, IsRun, HasRun, IsPart};
ghost use Rattle.core_sim.specs.Start.{start_runs};
ghost use Rattle.core_sim.specs.Valid.{IsValidJob};

/// A job has one run, and one prefix of it of each length.
pub fn one_run()
    ensures prefix { (job : Job) (a b : List Entry) → IsPrefix job a → IsPrefix job b → length a ≡ length b → a ≡ b }
    ensures run { (job : Job) (a b : List Entry) → IsRun job a → IsRun job b → a ≡ b }
{}

/// A job has a run, and each prefix is a part of it: with `one_run`, the run of a job and its events are values of the
/// job, whether or not a machine runs it.
pub fn has_run()
    ensures run { (job : Job) → HasRun job }
    ensures part { (job : Job) (run entries : List Entry) → IsRun job run → IsPrefix job entries → IsPart entries run }
{}

/// The pages of a valid job's start are runs inside memory, each after the one before it, and are few enough.
pub fn opening_pages()
    ensures rising { (job : Job) → IsValidJob job → RiseFrom 0 (start_runs job) }
    ensures few { (job : Job) → IsValidJob job → pages_in (start_runs job) ≤ MAX_MAPPED_PAGES }
{}

/// Each event of a valid job's run, or of a prefix of it, may follow those before it: it is valid, its hart has not
/// ended, and it maps and unmaps pages that may be. An entry has one to four events, so far each one; there are at most
/// as many entries as the job's steps.
pub fn run_events()
    ensures each { (job : Job) (entries : List Entry) → IsValidJob job → IsPrefix job entries →
        (i : ℕ) (event : Event) → slice_get (events_of_run entries) i ≡ Some event →
        MayFollow job (take i (events_of_run entries)) event }
    ensures next { (job : Job) (before : List Entry) (e : Entry) → IsValidJob job → IsPrefix job (e ∷ before) →
        AllFollow job (events_of_run before) (events_of_entry e) }
    ensures some { (e : Entry) → 1 ≤ length (events_of_entry e) }
    ensures few { (e : Entry) → length (events_of_entry e) ≤ MAX_EVENTS }
    ensures count { (entries : List Entry) → length (events_of_run entries) ≡ length entries }
    ensures limit { (job : Job) (entries : List Entry) → IsPrefix job entries → length entries ≤ job.steps }
{}

//! What the plan of a log keeps, and what its words represent.
ghost use Rattle.std.specs.Prelude.{◌≡◌, ℕ, ◌^◌, ◌<◌, ◌≤◌, length, slice_index};
ghost use Rattle.pl_event.specs.declared.log.Log.{Log};
ghost use Rattle.pl_event.specs.Conflicts.{IsOrdered};
ghost use Rattle.pl_event.specs.Numbers.{events_of};
ghost use Rattle.pl_event.specs.Runs.{IsRunLog};
ghost use Rattle.lifeguard.specs.Plain.{plain_result};
ghost use Rattle.lifeguard.specs.Rules.{Rules, KeepsLaws};
ghost use Rattle.order_core.specs.declared.course.Op.{Op};
ghost use Rattle.order_core.specs.Course.{IsListed, course_of};
ghost use Rattle.order_core.specs.Filled.{words_after};
ghost use Rattle.order_core.specs.Lawful.{IsLawful};
ghost use Rattle.shadow_frames.specs.declared.words.TheConstants.{TABLE_WORDS};
ghost use Rattle.shadow_frames.specs.Opening.{opening_words};
ghost use Rattle.shadow_frames.specs.Words.{WordsRepresent};
ghost use Rattle.shadow_layout.specs.Logs.{log_shapes, state_before};
ghost use Rattle.log_plan.specs.Plans.{AreFinalWords, opening_list, plan_of};

/// The plan of an ordered log of a run is lawful, and its opening words are those of the log's pages.
pub fn plan_laws()
    ensures lawful { (rules : Rules) (log : Log) → KeepsLaws rules → IsRunLog log → IsOrdered log
        → length log.lines < 4294967295 → IsLawful (course_of (plan_of rules log)) }
    ensures size { (rules : Rules) (log : Log) → length (plan_of rules log).opening ≡ TABLE_WORDS }
    ensures opening { (rules : Rules) (log : Log) → KeepsLaws rules → IsRunLog log
        → slice_index (plan_of rules log).opening ≡ opening_words rules.page_state log.pages }
{}

/// Before each line of a run's log, and after the last one, the words represent the plain state. Words that are as the
/// sequential run leaves them represent the state at the end.
pub fn last_words()
    ensures before { (rules : Rules) (log : Log) → KeepsLaws rules → IsRunLog log → (i : ℕ) → i ≤ length log.lines
        → WordsRepresent (words_after (log_shapes rules log) (opening_list rules log.pages) i)
        (state_before rules log i).bytes }
    ensures last { (rules : Rules) (log : Log) → KeepsLaws rules → IsRunLog log → (words : ℕ → ℕ)
        → AreFinalWords (course_of (plan_of rules log)) words
        → WordsRepresent words (plain_result rules log.pages (events_of log.lines)).bytes }
{}

/// The words before each line of a run's log, and after the last one, are below 2^64, and so are the values of all
/// operations.
pub fn wide_words()
    ensures words { (rules : Rules) (log : Log) → KeepsLaws rules → IsRunLog log → (i : ℕ) → i ≤ length log.lines
        → (w : ℕ) → words_after (log_shapes rules log) (opening_list rules log.pages) i w < 2 ^ 64 }
    ensures values { (rules : Rules) (log : Log) → KeepsLaws rules → IsRunLog log → (h m i : ℕ) (o : Op)
        → IsListed (plan_of rules log) h m i o → o.value < 2 ^ 64 }
{}

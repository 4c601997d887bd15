//! What holds of the log of every run.
ghost use Rattle.std.specs.Prelude.{◌≡◌, ◌≤◌, List, length};
ghost use Rattle.pl_base.specs.declared.layout.TheConstants.{BLOCK_BYTES, MAX_LOG_BYTES, MAX_RECORDS};
ghost use Rattle.pl_event.specs.declared.log.Line.{Line};
ghost use Rattle.pl_event.specs.declared.log.Log.{Log};
ghost use Rattle.pl_event.specs.Conflicts.{IsOrdered};
ghost use Rattle.pl_event.specs.Runs.{IsRunLog};
ghost use Rattle.log_grammar.specs.Spelling.{log_spelling};
ghost use Rattle.log_text.specs.WellFormed.{IsWellFormed};
ghost use Rattle.log_text.specs.Writing.{log_of};
ghost use Rattle.core_sim.specs.declared.job.Job.{Job};
ghost use Rattle.core_sim.specs.Start.{start_runs};
ghost use Rattle.core_sim.specs.Valid.{IsValidJob};
ghost use Rattle.run_record.specs.declared.recording.Recording.{Recording};
ghost use Rattle.run_record.specs.Recorded.{IsLogOfRun};
ghost use Rattle.run_record.specs.Recording.{IsRecording};

use arc_capture::{recorded_events, recorder_lines};
use core_sim::{one_run, opening_pages, run_events};
use log_text::log_laws;

/// The run of a valid job has one recorded log. It is well-formed and ordered, and its text is at most as long as a log
/// may be: so whatever reads logs takes it.
pub fn recorded_runs()
    ensures one { (job : Job) (a b : Log) → IsLogOfRun job a → IsLogOfRun job b → a ≡ b }
    ensures formed { (job : Job) (log : Log) → IsValidJob job → IsLogOfRun job log → IsWellFormed log }
    ensures ordered { (job : Job) (log : Log) → IsValidJob job → IsLogOfRun job log → IsOrdered log }
    ensures short { (job : Job) (log : Log) → IsValidJob job → IsLogOfRun job log →
        length (log_spelling log) ≤ MAX_LOG_BYTES }
{
    one_run();
    opening_pages();
    run_events();
    recorded_events();
    log_laws();
}

/// The lines so far of a run that is recorded are, with the pages of its start, the log of a run, of at most 2,000,000
/// records.
pub fn recording_lines()
    ensures run { (job : Job) (lines : List Line) (recording : Recording) → IsRecording job lines recording →
        IsRunLog (log_of job.harts BLOCK_BYTES (start_runs job) lines) }
    ensures few { (job : Job) (lines : List Line) (recording : Recording) → IsRecording job lines recording →
        length lines ≤ MAX_RECORDS }
{
    opening_pages();
    run_events();
    recorder_lines();
    recorded_events();
}

//! What holds of the recorded log of a job's run.
ghost use Rattle.std.specs.Prelude.{◌≡◌, List};
ghost use Rattle.pl_event.specs.declared.log.Line.{Line};
ghost use Rattle.pl_event.specs.declared.log.Log.{Log};
ghost use Rattle.core_sim.specs.declared.job.Job.{Job};
ghost use Rattle.core_sim.specs.Valid.{IsValidJob};
ghost use Rattle.run_record.specs.declared.recording.Recording.{Recording};
ghost use Rattle.run_record.specs.Recorded.{IsLogOfRun};
ghost use Rattle.run_record.specs.Recording.{IsRecordedWhole, IsRecording};
ghost use Rattle.run_log.specs.Logs.{HasLog, IsStartOf};

use arc_capture::recorder_lines;
use core_sim::{has_run, one_run, run_events};

/// Each valid job has a recorded log. The lines that were recorded of a part of its run are the start of it, and those
/// of the whole run are its lines.
pub fn run_logs()
    ensures log { (job : Job) → IsValidJob job → HasLog job }
    ensures part { (job : Job) (log : Log) (lines : List Line) (recording : Recording) → IsLogOfRun job log →
        IsRecording job lines recording → IsStartOf lines log.lines }
    ensures whole { (job : Job) (log : Log) (lines : List Line) (recording : Recording) → IsLogOfRun job log →
        IsRecordedWhole job lines recording → lines ≡ log.lines }
{
    one_run();
    has_run();
    run_events();
    recorder_lines();
}

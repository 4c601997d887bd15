//! What the rules on a log's text say of the log itself.
ghost use Rattle.std.specs.Prelude.{◌↔◌, ◌≤◌, ◌<◌, ◌^◌, ℕ, List, length};
ghost use Rattle.std.specs.declared.option.Option.{Option};
ghost use Rattle.pl_base.specs.declared.layout.TheConstants.{MAX_RECORDS};
ghost use Rattle.pl_event.specs.declared.log.Log.{Log};
ghost use Rattle.pl_event.specs.Runs.{IsRunLog, HasNumbersTo};
ghost use Rattle.log_grammar.specs.Form.{most_written};
ghost use Rattle.log_text.specs.declared.stream.LogStream.{LogStream};
ghost use Rattle.log_text.specs.Parts.{HasSoundLines};
ghost use Rattle.log_text.specs.Streaming.{IsStreamed};
ghost use Rattle.log_text.specs.WellFormed.{IsWellFormed, IsWritable};

/// A log is well-formed exactly where it is the log of a run and has at most 2,000,000 records. It may be written
/// exactly where it is the log of a run and names no record number of more than 32 bits, so always where it has fewer
/// than 2^32 records.
pub fn log_laws()
    ensures formed { (log : Log) → IsWellFormed log ↔ (IsRunLog log × (length log.lines ≤ MAX_RECORDS)) }
    ensures written { (log : Log) → IsWritable log ↔ (IsRunLog log × HasNumbersTo most_written log.lines) }
    ensures short { (log : Log) → IsRunLog log → length log.lines < 2 ^ 32 → IsWritable log }
{}

/// What a stream has read so far is a log whose lines are sound, though the event of a notice may still be to come.
pub fn streamed_lines()
    ensures { (limit : ℕ) (began now : Option (List ℕ)) (stream : LogStream) (log : Log) →
        IsStreamed limit began now stream log → HasSoundLines log }
{}

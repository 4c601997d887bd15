//! The call.
ghost use Rattle.std.specs.Prelude.{◌≡◌, map, string_bytes};
ghost use Rattle.paralog_top.specs.Asked.{told};
ghost use Rattle.paralog_top.specs.Statuses.{IsComplete};
ghost use Rattle.whence_top.specs.Asking.{AsksForNone};
ghost use Rattle.whence_top.specs.Statuses.{IsGood, Says};

use crate::asked::Asked;
use crate::ends::{not_read, tell};
use paralog_top::{Status, note};
use pl_base::layout::MAX_JOB_BYTES;
use pl_base::{Sink, Source, read_all};
use std::alloc::Global;

/// Tells of the events that the words name, in the run of the job that the source has: reads the job to its end, runs
/// it once, and writes to `out` for each event the instruction that gave it, the line of that, and the block of the
/// event's address. For any status but `Clean` one line goes to `notes`.
///
/// `Usage` comes before anything is read; `ReadFault` and `TooLong` by reading; `BadJob` before anything is written;
/// `WriteFault` last. `NoMemory` may come at any place before something is written. No other status comes.
pub fn whence_top<S: Source, K: Sink, E: Sink>(
    alloc: Global,
    words: &[String],
    source: &mut S,
    out: &mut K,
    notes: &mut E,
) -> Status
    // What the status says of the words, the input, the output and the notes.
    ensures says { Says (map string_bytes words.now)
        (told (S.left source.old) (S.left source.new) (S.faults source.old) (S.faults source.new))
        (told (K.written out.old) (K.written out.new) (K.faults out.old) (K.faults out.new))
        (told (E.written notes.old) (E.written notes.new) (E.faults notes.old) (E.faults notes.new)) result }

    // Words that name no events are refused, and nothing is read.
    ensures usage { AsksForNone (map string_bytes words.now) → result ≡ Status.Usage }
    ensures unread { result ≡ Status.Usage → source.new ≡ source.old }

    // Completeness.
    ensures complete { IsGood (map string_bytes words.now)
        (told (S.left source.old) (S.left source.new) (S.faults source.old) (S.faults source.new))
        (told (K.written out.old) (K.written out.new) (K.faults out.old) (K.faults out.new)) → IsComplete result }
{
    answer_words(alloc, words, source, out, notes)
}

/// The same; that good calls are answered follows from what the statuses say.
fn answer_words<S: Source, K: Sink, E: Sink>(
    alloc: Global,
    words: &[String],
    source: &mut S,
    out: &mut K,
    notes: &mut E,
) -> Status
    ensures says { Says (map string_bytes words.now)
        (told (S.left source.old) (S.left source.new) (S.faults source.old) (S.faults source.new))
        (told (K.written out.old) (K.written out.new) (K.faults out.old) (K.faults out.new))
        (told (E.written notes.old) (E.written notes.new) (E.faults notes.old) (E.faults notes.new)) result }
    ensures usage { AsksForNone (map string_bytes words.now) → result ≡ Status.Usage }
    ensures unread { result ≡ Status.Usage → source.new ≡ source.old }
{
    let Some(asked) = Asked::parse(words) else {
        note(notes, b"whence: usage\n");
        return Status::Usage;
    };
    match read_all(alloc, source, MAX_JOB_BYTES) {
        Ok(bytes) => tell(alloc, &bytes, asked.pairs(), out, notes),
        Err(end) => not_read(end, notes),
    }
}

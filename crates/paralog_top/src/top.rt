//! The top call.
ghost use Rattle.std.specs.Prelude.{◌≡◌, [], All, map, string_bytes};
ghost use Rattle.paralog_top.specs.Asked.{asks, told};
ghost use Rattle.paralog_top.specs.Commands.{IsNoCommand};
ghost use Rattle.paralog_top.specs.Statuses.{IsComplete, IsGood, Says};

use crate::command::Command;
use crate::dispatch::answer_to;
use crate::ends::{deliver, refuse};
use crate::notes::note;
use crate::status::Status;
use pl_base::{Sink, Source};
use replay_probes::Probe;
use std::alloc::Global;

/// Runs the command that the words are, on one thread, however many they name: reads its input, where it has one,
/// to the end, and writes its answer to `out` and, for any status but `Clean` and `Reports`, one line to `notes`. It
/// never waits.
///
/// `Usage` comes before anything is read; `ReadFault` and `TooLong` by reading; `BadJob` and `BadLog` before anything
/// is written; `Unordered` with the answer; `WriteFault` last. `NoMemory` may come at any place before something is
/// written.
pub fn plain_top<S: Source, K: Sink, E: Sink>(
    alloc: Global,
    words: &[String],
    source: &mut S,
    out: &mut K,
    notes: &mut E,
    probes: Vec<Box<dyn Probe>>,
) -> Status
    requires fresh { All (λ p. has_seen p []) probes.items }

    // What the status says of the words, the input, the output and the notes. The headline is its first two rows: all
    // that the source had left is a log, and what was written is the text of its plain result.
    ensures says { Says (asks (map (λ p. meaning p) probes.items) (map string_bytes words.now))
        (told (S.left source.old) (S.left source.new) (S.faults source.old) (S.faults source.new))
        (told (K.written out.old) (K.written out.new) (K.faults out.old) (K.faults out.new))
        (told (E.written notes.old) (E.written notes.new) (E.faults notes.old) (E.faults notes.new)) result }

    // Words that are no command are refused, and nothing is read.
    ensures usage { IsNoCommand (map (λ p. meaning p) probes.items) (map string_bytes words.now)
        → result ≡ Status.Usage }
    ensures unread { result ≡ Status.Usage → source.new ≡ source.old }

    // Completeness.
    ensures complete { IsGood (asks (map (λ p. meaning p) probes.items) (map string_bytes words.now))
        (told (S.left source.old) (S.left source.new) (S.faults source.old) (S.faults source.new))
        (told (K.written out.old) (K.written out.new) (K.faults out.old) (K.faults out.new)) → IsComplete result }
{
    answer_words(alloc, words, source, out, notes, probes)
}

/// The same; that good calls are answered follows from what the statuses say.
fn answer_words<S: Source, K: Sink, E: Sink>(
    alloc: Global,
    words: &[String],
    source: &mut S,
    out: &mut K,
    notes: &mut E,
    probes: Vec<Box<dyn Probe>>,
) -> Status
    requires fresh { All (λ p. has_seen p []) probes.items }
    ensures says { Says (asks (map (λ p. meaning p) probes.items) (map string_bytes words.now))
        (told (S.left source.old) (S.left source.new) (S.faults source.old) (S.faults source.new))
        (told (K.written out.old) (K.written out.new) (K.faults out.old) (K.faults out.new))
        (told (E.written notes.old) (E.written notes.new) (E.faults notes.old) (E.faults notes.new)) result }
    ensures usage { IsNoCommand (map (λ p. meaning p) probes.items) (map string_bytes words.now)
        → result ≡ Status.Usage }
    ensures unread { result ≡ Status.Usage → source.new ≡ source.old }
{
    let Some(command) = Command::parse(words, &probes) else {
        note(notes, b"paralog: usage\n");
        return Status::Usage;
    };
    match answer_to(alloc, command, probes, source) {
        Ok(answer) => deliver(alloc, &answer, out, notes),
        Err(refusal) => refuse(alloc, refusal, notes),
    }
}

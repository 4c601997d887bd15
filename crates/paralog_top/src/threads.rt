//! The top call on threads.
ghost use Rattle.std.specs.Prelude.{◌≡◌, ◌↔◌, ◌∷◌, [], All, IfOk, IfErr, IsTrue, map, string_bytes};
ghost use Rattle.paralog_top.specs.Answers.{IsAnswer};
ghost use Rattle.paralog_top.specs.Asked.{asks, told, tells};
ghost use Rattle.paralog_top.specs.Commands.{AskThreads, IsAllowed, IsNoCommand, IsThreaded, input_of};
ghost use Rattle.paralog_top.specs.Refusals.{IsRefusal, Reads};
ghost use Rattle.paralog_top.specs.Statuses.{IsComplete, IsGood, Says};

use crate::answer::Answer;
use crate::command::Command;
use crate::dispatch::answer_to;
use crate::ends::{deliver, refuse};
use crate::guards::guard_and_threads;
use crate::monitor::monitor_apart;
use crate::notes::note;
use crate::refusal::Refusal;
use crate::status::Status;
use crate::watch::watch_apart;
use pl_base::{Gate, Sink, Source};
use replay_probes::Probe;
use std::alloc::Global;
use std::sync::Wait;
use std::thread::Threads;

/// Whether the words ask for more than one thread: `watch L n` or `monitor L n` with n from 2 to 8.
pub fn threaded(words: &[String]) -> bool
    ensures { IsTrue result ↔ IsThreaded (map string_bytes words.now) }
{
    match words {
        [verb, operands @ ..] => asks_threads(verb.as_str(), operands),
        [] => false,
    }
}

/// Whether a first word and the words after it ask for more than one thread.
fn asks_threads(verb: &str, operands: &[String]) -> bool
    ensures { IsTrue result ↔ IsThreaded (verb.now ∷ map string_bytes operands.now) }
{
    match verb {
        "watch" => has_threads(operands),
        "monitor" => has_threads(operands),
        _ => false,
    }
}

/// Whether the words after `watch` or `monitor` ask for more than one thread.
fn has_threads(operands: &[String]) -> bool
    ensures { IsTrue result ↔ AskThreads (map string_bytes operands.now) }
{
    match guard_and_threads(operands) {
        Some((_, threads)) => match threads {
            1 => false,
            _ => true,
        },
        None => false,
    }
}

/// Runs the command that the words are, as `plain_top` does, on as many threads as they name. Where that is more than
/// one it may wait, and each worker passes the gate before each of its records.
pub fn paralog<R: Threads + Wait + Sync, S: Source, K: Sink, E: Sink, G: Gate + Sync>(
    rt: &R,
    alloc: Global,
    words: &[String],
    source: &mut S,
    out: &mut K,
    notes: &mut E,
    gate: &G,
    probes: Vec<Box<dyn Probe>>,
) -> Status
    requires fresh { All (λ p. has_seen p []) probes.items }

    // What the status says of the words, the input, the output and the notes. The headline is its first two rows: all
    // that the source had left is a log, and what was written is the text of its plain result.
    ensures says { Says (asks (map (λ p. meaning p) probes.items) (map string_bytes words.now))
        (told (S.left source.old) (S.left source.new) (S.faults source.old) (S.faults source.new))
        (told (K.written out.old) (K.written out.new) (K.faults out.old) (K.faults out.new))
        (told (E.written notes.old) (E.written notes.new) (E.faults notes.old) (E.faults notes.new)) result }

    // Words that are no command are refused, and nothing is read.
    ensures usage { IsNoCommand (map (λ p. meaning p) probes.items) (map string_bytes words.now)
        → result ≡ Status.Usage }
    ensures unread { result ≡ Status.Usage → source.new ≡ source.old }

    // Completeness.
    ensures complete { IsGood (asks (map (λ p. meaning p) probes.items) (map string_bytes words.now))
        (told (S.left source.old) (S.left source.new) (S.faults source.old) (S.faults source.new))
        (told (K.written out.old) (K.written out.new) (K.faults out.old) (K.faults out.new)) → IsComplete result }
{
    answer_apart(rt, alloc, words, source, out, notes, gate, probes)
}

/// The same; that good calls are answered follows from what the statuses say.
fn answer_apart<R: Threads + Wait + Sync, S: Source, K: Sink, E: Sink, G: Gate + Sync>(
    rt: &R,
    alloc: Global,
    words: &[String],
    source: &mut S,
    out: &mut K,
    notes: &mut E,
    gate: &G,
    probes: Vec<Box<dyn Probe>>,
) -> Status
    requires fresh { All (λ p. has_seen p []) probes.items }
    ensures says { Says (asks (map (λ p. meaning p) probes.items) (map string_bytes words.now))
        (told (S.left source.old) (S.left source.new) (S.faults source.old) (S.faults source.new))
        (told (K.written out.old) (K.written out.new) (K.faults out.old) (K.faults out.new))
        (told (E.written notes.old) (E.written notes.new) (E.faults notes.old) (E.faults notes.new)) result }
    ensures usage { IsNoCommand (map (λ p. meaning p) probes.items) (map string_bytes words.now)
        → result ≡ Status.Usage }
    ensures unread { result ≡ Status.Usage → source.new ≡ source.old }
{
    let Some(command) = Command::parse(words, &probes) else {
        note(notes, b"paralog: usage\n");
        return Status::Usage;
    };
    match answer_on(rt, alloc, command, gate, probes, source) {
        Ok(answer) => deliver(alloc, &answer, out, notes),
        Err(refusal) => refuse(alloc, refusal, notes),
    }
}

/// The command's answer to the input that the source has, with these probes.
fn answer_on<R: Threads + Wait + Sync, S: Source, G: Gate + Sync>(
    rt: &R,
    alloc: Global,
    command: Command,
    gate: &G,
    probes: Vec<Box<dyn Probe>>,
    source: &mut S,
) -> Result<Answer, Refusal>
    requires allowed { IsAllowed (map (λ p. meaning p) probes.items) command }
    requires fresh { All (λ p. has_seen p []) probes.items }
    ensures ok { let input = tells S.left S.faults source.old source.new in
        IfOk result (λ answer. Reads (input_of command) input
        (λ bytes. IsAnswer (map (λ p. meaning p) probes.items) command bytes answer.text.items answer.verdict)) }
    ensures err { let input = tells S.left S.faults source.old source.new in
        IfErr result (IsRefusal (input_of command) input) }
{
    match command {
        Command::Watch { guard, threads } if threads > 1 => {
            watch_apart(rt, alloc, guard, threads, gate, source)
        }
        Command::Monitor { guard, threads } if threads > 1 => {
            monitor_apart(rt, alloc, guard, threads, gate, source)
        }
        command => answer_to(alloc, command, probes, source),
    }
}

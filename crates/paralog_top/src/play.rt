//! A log that is played as it is read. Neither lines nor bytes are kept.
ghost use Rattle.std.specs.Prelude.{◌≡◌, ◌<◌, ◌++◌, [], List, ℕ, Ok, true, false, IfErr, OnOk};
ghost use Rattle.std.specs.declared.option.Option.{Option};
ghost use Rattle.std.specs.List.{cons_option};
ghost use Rattle.pl_event.specs.declared.event.Event.{Event};
ghost use Rattle.pl_event.specs.declared.log.PageRun.{PageRun};
ghost use Rattle.pl_event.specs.Numbers.{event_of};
ghost use Rattle.log_text.specs.Parts.{IsValidRecord};
ghost use Rattle.log_text.specs.Streaming.{IsEnd, KeepsFaults, bytes_ahead};
ghost use Rattle.replay_probes.specs.Meaning.{Meaning};
ghost use Rattle.paralog_top.specs.inner.Playing.{HasRoom, IsPlaying, IsPlayingSome, WasPlayed};

use crate::player::Player;
use log_text::{LogEnd, LogStream};
use pl_base::{NoMemory, Source};
use pl_event::Record;
use std::alloc::Global;

/// Plays the events of all records after the pages, each as its line is read.
pub fn play_rows<P: Player, S: Source>(
    alloc: Global,
    player: &mut P,
    stream: &mut LogStream,
    source: &mut S,
) -> Result<(), LogEnd>
    requires playing { IsPlayingSome (P.has_played player.old) (P.harts player.old) (S.left source.old) stream.old }
    ensures ok { (limit : ℕ) (began : Option (List ℕ)) (meanings : List Meaning)
        → IsPlaying (P.has_played player.old meanings) (P.harts player.old) limit began (S.left source.old) stream.old
        → OnOk result
        (WasPlayed (P.has_played player.new meanings) (P.harts player.new) limit began (S.left source.new)) }
    ensures end { (limit : ℕ) (began : Option (List ℕ)) (meanings : List Meaning)
        → IsPlaying (P.has_played player.old meanings) (P.harts player.old) limit began (S.left source.old) stream.old
        → IfErr result (IsEnd limit began (S.left source.new)) }
    ensures rules { P.rules player.new ≡ P.rules player.old }
    ensures faults { KeepsFaults (S.faults source.old) (S.faults source.new) result }
{
    let mut reading = true;
    'rows: while reading {
        match play_row(alloc, player, stream, source) {
            Ok(more) => reading = more,
            Err(end) => return Err(end),
        }
    }
    Ok(())
}

/// Reads one more line and plays its event; false at the end of the log.
#[inline(always)]
fn play_row<P: Player, S: Source>(
    alloc: Global,
    player: &mut P,
    stream: &mut LogStream,
    source: &mut S,
) -> Result<bool, LogEnd>
    requires playing { IsPlayingSome (P.has_played player.old) (P.harts player.old) (S.left source.old) stream.old }
    ensures more { (limit : ℕ) (began : Option (List ℕ)) (meanings : List Meaning)
        → IsPlaying (P.has_played player.old meanings) (P.harts player.old) limit began (S.left source.old) stream.old
        → result ≡ Ok true
        → IsPlaying (P.has_played player.new meanings) (P.harts player.new) limit began (S.left source.new) stream.new }
    ensures over { (limit : ℕ) (began : Option (List ℕ)) (meanings : List Meaning)
        → IsPlaying (P.has_played player.old meanings) (P.harts player.old) limit began (S.left source.old) stream.old
        → result ≡ Ok false
        → WasPlayed (P.has_played player.new meanings) (P.harts player.new) limit began (S.left source.new) }
    ensures end { (limit : ℕ) (began : Option (List ℕ)) (meanings : List Meaning)
        → IsPlaying (P.has_played player.old meanings) (P.harts player.old) limit began (S.left source.old) stream.old
        → IfErr result (IsEnd limit began (S.left source.new)) }
    ensures further { result ≡ Ok true → bytes_ahead stream.new.buffer < bytes_ahead stream.old.buffer }
    ensures rules { P.rules player.new ≡ P.rules player.old }
    ensures faults { KeepsFaults (S.faults source.old) (S.faults source.new) result }
{
    match stream.next(source) {
        Ok(Some(row)) => {
            play_record(alloc, player, row.what)?;
            Ok(true)
        }
        Ok(None) => Ok(false),
        Err(end) => Err(end),
    }
}

/// Plays the event of a record; a notice has none.
#[inline(always)]
fn play_record<P: Player>(alloc: Global, player: &mut P, what: Record) -> Result<(), NoMemory>
    requires valid { IsValidRecord (P.harts player.old) what }
    requires room { HasRoom (P.has_played player.old) }
    ensures plays { OnOk result ((meanings : List Meaning) (pages : List PageRun) (events : List Event)
        → P.has_played player.old meanings pages events
        → P.has_played player.new meanings pages (events ++ cons_option (event_of what) [])) }
    ensures harts { P.harts player.new ≡ P.harts player.old }
    ensures rules { P.rules player.new ≡ P.rules player.old }
{
    match what {
        Record::Event(event) => player.play(alloc, &event),
        Record::Notice { .. } => Ok(()),
    }
}

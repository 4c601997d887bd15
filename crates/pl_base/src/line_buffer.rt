//! Whole lines of a source that is read piece by piece.
ghost use Rattle.std.specs.Prelude.{◌≡◌, ◌≢◌, true, false, ℕ, slice_index, ◌+◌, ◌≤◌, ◌<◌, List, [], ◌++◌, length, take, drop, vec_len, IfOk, IfErr, OnOk, OnErr, IfSome, IsErrOf, MatchResult};
ghost use Rattle.std.specs.Io.KnownBytes.{Consumes, Keeps, IsAtEnd};
ghost use Rattle.pl_base.specs.Causes.{HasCause, HasReadCause};
ghost use Rattle.pl_base.specs.Fronts.{HasMore, TakesFront};
ghost use Rattle.pl_base.specs.Held.{front_of, begun_of, next_of, HasNoLineFeed, IsOrdered, HasSamePlaces};
ghost use Rattle.pl_base.specs.LineBuffer.{Window, Reads, Fills, Stops, Skips, ends_line};

use crate::loops::{PIECE, zeros};
use crate::{Failed, NoMemory, ReadEnd, Source};
use std::alloc::{AllocError, Global};
use std::marker::Model;

/// How many bytes a read asks for at least. It asks for `PIECE` at most.
const ROOM: usize = 64;

/// How many of these bytes there are up to the last line feed, with it.
fn lines_len(bytes: &[u8]) -> usize
    ensures within { result ≤ length bytes.now }
    ensures lines { ends_line (take result bytes.now) ≡ true }
    ensures last { (k : ℕ) → result ≤ k → k < length bytes.now → slice_index bytes.now k ≢ 10 }
{
    for at in (0..bytes.len()).rev() {
        if bytes[at] == b'\n' {
            return at + 1;
        }
    }
    0
}

/// Reads the rest of a source, at most `limit` bytes, and keeps none of it.
fn skip<S: Source>(source: &mut S, limit: u32, piece: &mut [u8]) -> Result<(), ReadEnd>
    requires room { 0 < length piece.old }
    requires short { length piece.old ≤ PIECE }
    ensures ok { OnOk result (Skips (S.left source.old) (S.left source.new) limit) }
    ensures too_long { IsErrOf result ReadEnd.TooLong → HasMore (S.left source.old) limit }
    ensures taken { IfErr result (λ end. TakesFront end (S.left source.old) (S.left source.new) limit) }
    ensures cause { HasReadCause (S.faults source.old) (S.faults source.new) result }
    ensures no_memory { IfErr result (λ end. end ≢ ReadEnd.NoMemory) }
{
    let mut spare = limit as usize;
    loop {
        let Ok(count) = source.read(piece) else {
            return Err(ReadEnd::Fault);
        };
        if count == 0 {
            return Ok(());
        }
        if count > spare {
            return Err(ReadEnd::TooLong);
        }
        spare -= count;
    }
}

/// One buffer: the bytes at hand from `start` to `whole`, those begun up to `end`, and room after them.
#[derive(Drop)]
struct Held {
    bytes: Vec<u8>,
    start: usize,
    whole: usize,
    end: usize,
}

impl Held {
    /// Sees to it that a read has room, where nothing is at hand: moves what is begun to the beginning
    /// of the buffer, and doubles the buffer where that is not enough.
    fn make_room(&mut self) -> Result<(), AllocError>
        requires ordered { IsOrdered self.old }
        requires empty { self.old.start ≡ self.old.whole }
        ensures ordered { IsOrdered self.new }
        ensures empty { self.new.start ≡ self.new.whole }
        ensures begun { begun_of self.new ≡ begun_of self.old }
        ensures room { OnOk result (self.new.end + 64 ≤ vec_len self.new.bytes) }
    {
        if self.bytes.len() - self.end >= ROOM {
            return Ok(());
        }
        self.bytes.copy_within(self.whole..self.end, 0);
        self.end -= self.whole;
        self.start = 0;
        self.whole = 0;
        if self.bytes.len() - self.end < ROOM {
            self.bytes.resize(self.bytes.len() * 2, 0)?;
        }
        Ok(())
    }

    /// Reads once into the room after the bytes begun, and says how many bytes came there.
    fn read<S: Source>(&mut self, source: &mut S) -> Result<usize, Failed>
        requires ordered { IsOrdered self.old }
        requires room { self.old.end < vec_len self.old.bytes }
        ensures places { HasSamePlaces self.old self.new }
        ensures begun { begun_of self.new ≡ begun_of self.old }
        ensures within { IfOk result (λ n. (self.new.end + n ≤ vec_len self.new.bytes) × (n ≤ PIECE)) }

        // The bytes that came are those after the bytes begun.
        ensures bytes { IfOk result (λ n. Consumes (S.left source.old) (S.left source.new) (next_of self.new n)) }
        ensures end { IfOk result (λ n. n ≡ 0 → IsAtEnd (S.left source.new)) }
        ensures none { OnErr result (Keeps (S.left source.old) (S.left source.new)) }
        ensures cause { HasCause (S.faults source.old) (S.faults source.new) result }
    {
        let room = (self.bytes.len() - self.end).min(PIECE);
        source.read(&mut self.bytes[self.end..self.end + room])
    }

    /// Takes in the bytes that were read after those begun, where nothing was at hand.
    fn take_in(&mut self, count: usize)
        requires ordered { IsOrdered self.old }
        requires empty { self.old.start ≡ self.old.whole }
        requires read { self.old.end + count ≤ vec_len self.old.bytes }
        requires begun { HasNoLineFeed (begun_of self.old) }
        ensures ordered { IsOrdered self.new }
        ensures lines { ends_line (front_of self.new) ≡ true }
        ensures begun { HasNoLineFeed (begun_of self.new) }

        ensures joined { front_of self.new ++ begun_of self.new ≡ begun_of self.old ++ next_of self.old count }
    {
        let lines = lines_len(&self.bytes[self.end..self.end + count]);
        if lines > 0 {
            self.whole = self.end + lines;
        }
        self.end += count;
    }
}

/// Reads a source piece by piece and hands out whole lines, so that the source is never in memory
/// whole.
///
/// What is at hand is whole lines, or at the end of the source all that is left. The buffer has
/// 64 KiB, and grows where a line is longer.
#[derive(Drop)]
pub struct LineBuffer {
    held: Held,
    spare: u32,
    ended: bool,
}

impl Model for LineBuffer {
    ghost use Rattle.pl_base.specs.Held.{front_of, begun_of};
    ghost use Rattle.pl_base.specs.LineBuffer.{Window, IsSound};

    ghost Value = { Window };

    ghost view = { λ b. record { front = front_of b.held; begun = begun_of b.held; spare = b.spare; ended = b.ended } };

    ghost invariant = { λ b. IsSound b.held b.ended };
}

impl LineBuffer {
    /// A buffer that takes at most `limit` bytes of its source.
    ///
    /// # Errors
    ///
    /// `NoMemory` where no memory was left.
    pub fn new(alloc: Global, limit: u32) -> Result<LineBuffer, NoMemory>
        ensures { IfOk result (λ lines. lines ≡ record { front = []; begun = []; spare = limit; ended = false }) }
    {
        let bytes = zeros(alloc, PIECE)?;
        let held = Held {
            bytes,
            start: 0,
            whole: 0,
            end: 0,
        };
        Ok(LineBuffer {
            held,
            spare: limit,
            ended: false,
        })
    }

    /// What is at hand: whole lines, or at the end of the source all that is left.
    #[inline(always)]
    pub fn front(&self) -> &[u8]
        ensures { result.now ≡ self.now.front }
    {
        &self.held.bytes[self.held.start..self.held.whole]
    }

    /// Whether the source is at its end.
    #[inline(always)]
    pub fn is_ended(&self) -> bool
        ensures { result ≡ self.now.ended }
    {
        self.ended
    }

    /// Lets the first bytes of what is at hand go.
    #[inline(always)]
    pub fn pass(&mut self, count: usize)
        requires { count ≤ length self.old.front }
        ensures { self.new ≡ record self.old { front = drop count self.old.front } }
    {
        self.held.start += count;
    }

    /// Reads once, after the line begun.
    fn read_more<S: Source>(&mut self, source: &mut S) -> Result<(), ReadEnd>
        requires empty { self.old.front ≡ [] }
        requires going { self.old.ended ≡ false }
        ensures ok { OnOk result (Reads (S.left source.old) (S.left source.new) self.old self.new) }
        ensures last { OnOk result (self.new.ended ≡ true → (self.new.begun ≡ []) × IsAtEnd (S.left source.new)) }
        ensures lines { OnOk result (self.new.ended ≡ false → ends_line self.new.front ≡ true) }
        ensures more { OnOk result (self.new.ended ≡ false → self.new.spare < self.old.spare) }
        ensures none_held { HasNoLineFeed self.new.begun }
        ensures stopped { IfErr result (λ end. Stops end (S.left source.old) (S.left source.new) self.old self.new) }
        ensures too_long { IsErrOf result ReadEnd.TooLong → HasMore (S.left source.old) self.old.spare }
        ensures taken { IfErr result (λ end. TakesFront end (S.left source.old) (S.left source.new) self.old.spare) }
        ensures cause { HasReadCause (S.faults source.old) (S.faults source.new) result }
    {
        self.held.make_room()?;
        let Ok(count) = self.held.read(source) else {
            return Err(ReadEnd::Fault);
        };
        if count == 0 {
            self.held.whole = self.held.end;
            self.ended = true;
            return Ok(());
        }
        if count > self.spare as usize {
            return Err(ReadEnd::TooLong);
        }
        self.held.take_in(count);
        self.spare -= count as u32;
        Ok(())
    }

    /// Reads until a line is whole or the source is at its end, where nothing is at hand.
    ///
    /// It asks for 64 KiB at most at a time, and reads no more once it came to the end or past the
    /// limit.
    ///
    /// # Errors
    ///
    /// - `Fault` where a read failed.
    /// - `TooLong` where more bytes came than the limit.
    /// - `NoMemory` where no memory was left.
    ///
    /// After `Fault` and `NoMemory` nothing that was read is lost, and filling goes on where it stopped.
    pub fn fill<S: Source>(&mut self, source: &mut S) -> Result<(), ReadEnd>
        requires empty { self.old.front ≡ [] }
        requires going { self.old.ended ≡ false }
        ensures ok { OnOk result (Fills (S.left source.old) (S.left source.new) self.old self.new) }
        ensures stopped { IfErr result (λ end. Stops end (S.left source.old) (S.left source.new) self.old self.new) }
        ensures too_long { IsErrOf result ReadEnd.TooLong → HasMore (S.left source.old) self.old.spare }

        // What was taken at an error: past the limit where that was too long, and else no more than the limit.
        ensures taken { IfErr result (λ end. TakesFront end (S.left source.old) (S.left source.new) self.old.spare) }
        ensures cause { HasReadCause (S.faults source.old) (S.faults source.new) result }
    {
        loop {
            self.read_more(source)?;
            if self.is_ended() || !self.front().is_empty() {
                return Ok(());
            }
        }
    }

    /// Reads all that the source still has and keeps none of it, for a caller that found a fault in
    /// the lines and owes the reading to the end. Nothing is at hand or begun after it.
    ///
    /// It reads nothing where the source is at its end. It asks for 64 KiB at most at a time, and reads
    /// no more once it came to the end or past the limit.
    ///
    /// # Errors
    ///
    /// - `Fault` where a read failed.
    /// - `TooLong` where more bytes came than the limit.
    pub fn skip_rest<S: Source>(&mut self, source: &mut S) -> Result<(), ReadEnd>
        ensures ok { (self.old.ended ≡ true → IsAtEnd (S.left source.old)) →
            OnOk result (Skips (S.left source.old) (S.left source.new) self.old.spare) }
        ensures ended { OnOk result (self.new ≡ record self.old { front = []; begun = []; ended = true }) }
        ensures going { OnErr result (self.new ≡ record self.old { front = []; begun = []; ended = false }) }
        ensures too_long { IsErrOf result ReadEnd.TooLong → HasMore (S.left source.old) self.old.spare }

        // What was taken at an error: past the limit where that was too long, and else no more than the limit.
        ensures taken { IfErr result (λ end. TakesFront end (S.left source.old) (S.left source.new) self.old.spare) }
        ensures kept { self.old.ended ≡ true → source.new ≡ source.old }
        ensures cause { HasReadCause (S.faults source.old) (S.faults source.new) result }
        ensures no_memory { IfErr result (λ end. end ≢ ReadEnd.NoMemory) }
    {
        self.held.start = 0;
        self.held.whole = 0;
        self.held.end = 0;
        if self.ended {
            return Ok(());
        }
        let room = self.held.bytes.len().min(PIECE);
        skip(source, self.spare, &mut self.held.bytes[..room])?;
        self.ended = true;
        Ok(())
    }
}

//! Reading a source to its end, and writing bytes until none are left.
ghost use Rattle.std.specs.Prelude.{◌≡◌, ◌≤◌, ◌<◌, [], length, vec_len, IfOk, IfErr, OnOk, OnErr, IfSome, IsErrOf};
ghost use Rattle.std.specs.Io.KnownBytes.{Appends, Consumes, IsAtEnd};
ghost use Rattle.pl_base.specs.Causes.{Rose, HasReadCause};
ghost use Rattle.pl_base.specs.Fronts.{HasMore, TakesFront, AppendsFront, AppendsLess};

use crate::{Failed, Sink, Source};
use std::alloc::{AllocError, Global};

/// How many bytes are asked for at a time, by `read_all` and at most by a `LineBuffer`: 64 KiB.
pub(crate) const PIECE: usize = 65536;

/// Why not all of a source was read.
#[derive(Clone, Copy, Debug, PartialEq, Eq)]
pub enum ReadEnd {
    /// A read failed.
    Fault,
    /// More bytes came than the limit.
    TooLong,
    /// No memory was left for the bytes.
    NoMemory,
}

impl From<AllocError> for ReadEnd {
    ghost use Rattle.std.specs.Prelude.{◌≡◌};
    ghost use Rattle.pl_base.specs.declared.loops.ReadEnd.TheVariants.{NoMemory};

    ghost from_gives = { λ _ e. e ≡ NoMemory };

    fn from(_error: AllocError) -> ReadEnd {
        ReadEnd::NoMemory
    }
}

/// Bytes to read into.
pub(crate) fn zeros(alloc: Global, len: usize) -> Result<Vec<u8>, AllocError>
    ensures { IfOk result (λ bytes. vec_len bytes ≡ len) }
{
    vec![in alloc; 0u8; len]
}

/// Appends all bytes of the source up to its end to `all`, piece by piece.
fn fill<S: Source>(
    source: &mut S,
    limit: u32,
    piece: &mut [u8],
    all: &mut Vec<u8>,
) -> Result<(), ReadEnd>
    requires room { 0 < length piece.old }
    requires short { length piece.old ≤ PIECE }
    requires empty { all.old.items ≡ [] }
    ensures whole { OnOk result (IfSome (S.left source.old) (λ left. left ≡ all.new.items)) }
    ensures end { OnOk result (IsAtEnd (S.left source.new)) }
    ensures within { OnOk result (vec_len all.new ≤ limit) }
    ensures read { OnOk result (Consumes (S.left source.old) (S.left source.new) all.new.items) }
    ensures too_long { IsErrOf result ReadEnd.TooLong → HasMore (S.left source.old) limit }
    ensures taken { IfErr result (λ end. TakesFront end (S.left source.old) (S.left source.new) limit) }
    ensures cause { HasReadCause (S.faults source.old) (S.faults source.new) result }
{
    loop {
        let Ok(count) = source.read(piece) else {
            return Err(ReadEnd::Fault);
        };
        if count == 0 {
            return Ok(());
        }
        if count > limit as usize - all.len() {
            return Err(ReadEnd::TooLong);
        }
        all.extend_from_slice(&piece[..count])?;
    }
}

/// All bytes of the source up to its end, at most `limit` of them.
///
/// It asks for 64 KiB at a time, and reads no more once it came to the end or past the limit.
///
/// # Errors
///
/// - `Fault` where a read failed.
/// - `TooLong` where more than `limit` bytes came.
/// - `NoMemory` where no memory was left.
pub fn read_all<S: Source>(alloc: Global, source: &mut S, limit: u32) -> Result<Vec<u8>, ReadEnd>
    ensures whole { IfOk result (λ bytes. IfSome (S.left source.old) (λ left. left ≡ bytes.items)) }
    ensures end { OnOk result (IsAtEnd (S.left source.new)) }
    ensures within { IfOk result (λ bytes. vec_len bytes ≤ limit) }
    ensures read { IfOk result (λ bytes. Consumes (S.left source.old) (S.left source.new) bytes.items) }

    ensures too_long { IsErrOf result ReadEnd.TooLong → HasMore (S.left source.old) limit }

    // What was taken at an error: past the limit where that was too long, and else no more than the limit.
    ensures taken { IfErr result (λ end. TakesFront end (S.left source.old) (S.left source.new) limit) }
    ensures cause { HasReadCause (S.faults source.old) (S.faults source.new) result }
{
    let mut all: Vec<u8> = Vec::new(alloc);
    let mut piece = zeros(alloc, PIECE)?;
    fill(source, limit, &mut piece, &mut all)?;
    Ok(all)
}

/// Writes all bytes, in as many writes as the sink needs, and stops at the first that fails.
///
/// # Errors
///
/// `Failed` where a write failed. Then a prefix of the bytes was appended, and not all of them.
pub fn write_all_counted<K: Sink>(sink: &mut K, bytes: &[u8]) -> Result<(), Failed>
    ensures ok { OnOk result (Appends (K.written sink.old) (K.written sink.new) bytes.now) }
    ensures failed { OnErr result (AppendsLess (K.written sink.old) (K.written sink.new) bytes.now) }
    ensures front { AppendsFront (K.written sink.old) (K.written sink.new) bytes.now }

    ensures quiet { OnOk result (K.faults sink.new ≡ K.faults sink.old) }
    ensures cause { OnErr result (Rose (K.faults sink.old) (K.faults sink.new)) }
    ensures later { K.faults sink.old ≤ K.faults sink.new }
{
    let mut at = 0;
    while at < bytes.len() {
        match sink.write(&bytes[at..]) {
            Ok(count) => at += count,
            Err(Failed) => return Err(Failed),
        }
    }
    Ok(())
}

//! Lines that come in pieces, longer than the buffer, and after a read that failed.
use crate::{LineBuffer, MemSource, ReadEnd};
use std::alloc::{AllocError, Global};
use std::test::Fail;

/// As many bytes of one letter as told, and an end after them.
fn letters(alloc: Global, len: usize, end: &[u8]) -> Result<Vec<u8>, AllocError> {
    let mut text = vec![in alloc; b'x'; len]?;
    text.extend_from_slice(end)?;
    Ok(text)
}

/// What is at hand after each filling up to the source's end, with a bar after each.
fn fillings(alloc: Global, source: &mut MemSource, limit: u32) -> Result<Vec<u8>, ReadEnd> {
    let mut all = Vec::new(alloc);
    let Ok(mut lines) = LineBuffer::new(alloc, limit) else {
        return Err(ReadEnd::NoMemory);
    };
    for _ in 0..1000 {
        if lines.is_ended() || !lines.front().is_empty() {
            return Ok(all);
        }
        lines.fill(source)?;
        all.extend_from_slice(lines.front())?;
        all.extend_from_slice(b"|")?;
        lines.pass(lines.front().len());
    }
    Ok(all)
}

#[test]
fn lines_come_whole_whatever_the_pieces(rt: HostRuntime) -> Result<(), Fail> {
    let alloc = rt.alloc();
    let wanted = [
        b"ab\n|PREP 1\n|END|".as_slice(),
        b"ab\n|PREP 1\n|END|",
        b"ab\nPREP 1\n|END|",
    ];
    for (piece, wanted) in [1, 4, 1000].iter().zip(wanted.iter()) {
        let text = b"ab\nPREP 1\nEND".to_vec(alloc)?;
        let mut source = MemSource::new(text, *piece, Vec::new(alloc));
        assert_eq!(rt; fillings(alloc, &mut source, 13)?.as_slice(), *wanted);
    }
    Ok(())
}

#[test]
fn a_line_longer_than_the_buffer_comes_whole(rt: HostRuntime) -> Result<(), Fail> {
    let alloc = rt.alloc();
    let wanted = letters(alloc, 200_000, b"\n|END|")?;
    for piece in [1000, 300_000] {
        let text = letters(alloc, 200_000, b"\nEND")?;
        let mut source = MemSource::new(text, piece, Vec::new(alloc));
        assert_eq!(rt; fillings(alloc, &mut source, 300_000)?, wanted);
    }
    Ok(())
}

#[test]
fn filling_goes_on_after_a_read_that_failed(rt: HostRuntime) -> Result<(), Fail> {
    let alloc = rt.alloc();
    let mut source = MemSource::new(b"PREP 1\n".to_vec(alloc)?, 4, [2].to_vec(alloc)?);
    let mut lines = LineBuffer::new(alloc, 7)?;
    assert_eq!(rt; lines.fill(&mut source), Err(ReadEnd::Fault));
    if lines.front().is_empty() && !lines.is_ended() {
        assert_eq!(rt; lines.fill(&mut source), Ok(()));
    }
    assert_eq!(rt; lines.front(), b"PREP 1\n".as_slice());
    Ok(())
}

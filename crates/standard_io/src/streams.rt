//! Readers and writers as sources and sinks.
use pl_base::{Failed, Sink, Source};
use std::io::{Read, Write};

/// A source over a reader: its bytes are those that the reader has left, and a read that fails is counted.
#[derive(Drop)]
pub struct Reading<R: Read + Drop> {
    reader: R,
    faults: u64,
}

impl<R: Read + Drop> Reading<R> {
    pub fn new(reader: R) -> Reading<R> {
        Reading { reader, faults: 0 }
    }
}

impl<R: Read + Drop> Source for Reading<R> {
    ghost left = { λ s. R.remaining s.reader };

    ghost faults = { λ s. s.faults };

    fn read(&mut self, into: &mut [u8]) -> Result<usize, Failed> {
        let faults = self.faults;
        match self.reader.read(into) {
            Ok(count) => Ok(count),
            Err(_) => {
                self.faults = faults.saturating_add(1);
                Err(Failed)
            }
        }
    }
}

/// A sink over a writer: its bytes are those that the writer holds, and a write that fails or takes nothing is counted.
#[derive(Drop)]
pub struct Writing<W: Write + Drop> {
    writer: W,
    faults: u64,
}

impl<W: Write + Drop> Writing<W> {
    pub fn new(writer: W) -> Writing<W> {
        Writing { writer, faults: 0 }
    }
}

impl<W: Write + Drop> Sink for Writing<W> {
    ghost written = { λ s. W.contents s.writer };

    ghost faults = { λ s. s.faults };

    fn write(&mut self, piece: &[u8]) -> Result<usize, Failed> {
        let faults = self.faults;
        match self.writer.write(piece) {
            Ok(count) if count > 0 => Ok(count),
            _ => {
                self.faults = faults.saturating_add(1);
                Err(Failed)
            }
        }
    }
}

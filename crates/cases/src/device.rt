//! How a source or a sink in memory behaves.

ghost use Rattle.std.specs.Prelude.{◌<◌};

use crate::texts::number;
use anyhow::{Result, bail};
use pl_base::{MemSink, MemSource, NoMemory};
use std::alloc::Global;

/// The room of a sink that has enough: 4 MiB.
const AMPLE: u32 = 0x40_0000;

/// What a number of a device's line says.
#[derive(Clone, Copy)]
enum Setting {
    Room,
    Pieces,
    Fails,
}

/// The bytes that a sink has room for, the most bytes of a call, and the numbers of the calls that fail.
#[derive(Drop)]
pub struct Device {
    room: u32,
    piece: u32,
    fails: Vec<u32>,
    ghost moves: { 0 < piece },
}

impl Device {
    ghost use Rattle.std.specs.Prelude.{◌≡◌, [], IfOk};
    ghost use Rattle.cases.specs.Device.{sink_of, source_of};

    /// One that never fails, and gives or takes whole pieces.
    pub fn new(alloc: Global) -> Device
        ensures { result.fails.items ≡ [] }
    {
        Device {
            room: AMPLE,
            piece: u32::MAX,
            fails: Vec::new(alloc),
        }
    }

    /// Reads `room N`, `pieces N` and `fails N ..`, in any order.
    pub fn set(&mut self, text: &str) -> Result<()> {
        let mut setting = None;
        for word in text.split(' ') {
            match word {
                "room" => setting = Some(Setting::Room),
                "pieces" => setting = Some(Setting::Pieces),
                "fails" => setting = Some(Setting::Fails),
                _ => self.put(setting, number(word)?)?,
            }
        }
        Ok(())
    }

    fn put(&mut self, setting: Option<Setting>, number: u32) -> Result<()> {
        match setting {
            Some(Setting::Room) => self.room = number,
            Some(Setting::Pieces) if number > 0 => self.piece = number,
            Some(Setting::Fails) => self.fails.push(number)?,
            _ => bail!("no room, pieces or fails: {number}"),
        }
        Ok(())
    }

    /// A source of these bytes that behaves so.
    pub fn source(&self, bytes: Vec<u8>) -> Result<MemSource, NoMemory>
        ensures { IfOk result (λ source. source ≡ source_of self.now bytes.items) }
    {
        Ok(MemSource::new(bytes, self.piece, self.fails.clone()?))
    }

    /// A sink that behaves so.
    pub fn sink(&self, alloc: Global) -> Result<MemSink, NoMemory>
        ensures { IfOk result (λ sink. sink ≡ sink_of self.now) }
    {
        MemSink::new(alloc, self.room, self.piece, self.fails.clone()?)
    }
}

//! The block in which an address lies, or after which.
ghost use Rattle.std.specs.Prelude.{◌≡◌, ◌+◌, ◌-◌};
ghost use Rattle.whence_trail.specs.Blocks.{latest_in};
ghost use Rattle.whence_trail.specs.Nearness.{below, near_by, near_of as near_of_address};

use crate::block::{Block, latest};

/// How many bytes below an address a block is looked for.
const REACH: u32 = 64;

/// How an address lies to a block.
#[derive(Clone, Copy, Debug, PartialEq, Eq)]
pub enum Near {
    /// In it: `byte` bytes from its first one on.
    In { block: Block, byte: u64 },
    /// After it: `by` bytes lie between the last byte that was asked for and the address.
    After { block: Block, by: u64 },
}

/// The last of the blocks that has the nearest of so many addresses below this one.
fn below(blocks: &[Block], reach: u32, addr: u32) -> Option<Block>
    ensures { result ≡ below (latest_in blocks.now) reach addr }
{
    let mut at = addr;
    'below: for step in 0..reach {
        at = at.saturating_sub(1);
        if let Some(block) = latest(blocks, at) {
            return Some(block);
        }
    }
    None
}

fn after(block: Block, addr: u32) -> Near
    ensures { result ≡ Near.After block (addr - (block.addr + block.len)) }
{
    let end = u64::from(block.addr) + u64::from(block.len);
    let by = u64::from(addr).saturating_sub(end);
    Near::After { block, by }
}

/// How an address lies to these blocks; none where it is in no block and in the 64 bytes after none.
fn near_at(blocks: &[Block], addr: u32) -> Option<Near>
    ensures { result ≡ near_by (latest_in blocks.now) addr }
{
    if let Some(block) = latest(blocks, addr) {
        let byte = u64::from(addr.saturating_sub(block.addr));
        return Some(Near::In { block, byte });
    }
    match below(blocks, REACH, addr) {
        Some(block) => Some(after(block, addr)),
        None => None,
    }
}

/// The same of an address that may be none.
pub fn near_of(blocks: &[Block], addr: Option<u32>) -> Option<Near>
    ensures { result ≡ near_of_address (latest_in blocks.now) addr }
{
    match addr {
        Some(addr) => near_at(blocks, addr),
        None => None,
    }
}

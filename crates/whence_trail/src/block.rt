//! Blocks of the heap: where they came from and went.
ghost use Rattle.std.specs.Prelude.{◌≡◌, ◌++◌, ◌∷◌, [], map, IfOk, OnOk, not};
ghost use Rattle.std.specs.List.{filter};
ghost use Rattle.whence_trail.specs.Blocks.{end_of, holds, covers, freed_by, latest_in, with_block};

use crate::happening::Origin;
use pl_base::NoMemory;
use pl_base::layout::UNIT_BYTES;

/// A block of the heap, live or freed.
#[derive(Clone, Copy, Debug, PartialEq, Eq)]
pub struct Block {
    pub addr: u32,
    /// How many bytes were asked for.
    pub len: u32,
    /// The event that allocated it.
    pub allocated: Origin,
    /// The event that freed it; none of a live block.
    pub freed: Option<Origin>,
}

/// The first address after a block. It takes whole units of 16 bytes.
fn end_of(block: &Block) -> u64
    ensures { result ≡ end_of block.now }
{
    let unit = u64::from(UNIT_BYTES);
    u64::from(block.addr) + (u64::from(block.len) + (unit - 1)) / unit * unit
}

/// Whether the block has this address.
fn holds(block: &Block, addr: u32) -> bool
    ensures { result ≡ holds block.now addr }
{
    block.addr <= addr && u64::from(addr) < end_of(block)
}

/// Whether the first block has each address of the second one.
fn covers(block: &Block, other: &Block) -> bool
    ensures { result ≡ covers block.now other.now }
{
    block.addr <= other.addr && end_of(other) <= end_of(block)
}

/// The block after a free of the block at an address; a block that was freed stays as it is.
fn freed_by(block: Block, addr: u32, free: Origin) -> Block
    ensures { result ≡ freed_by addr free block }
{
    if block.addr == addr && block.freed.is_none() {
        Block {
            freed: Some(free),
            ..block
        }
    } else {
        block
    }
}

/// The last of the blocks that has this address.
pub fn latest(blocks: &[Block], addr: u32) -> Option<Block>
    ensures { result ≡ latest_in blocks.now addr }
{
    let mut found = None;
    'each: for block in blocks {
        if holds(block, addr) {
            found = Some(*block);
        }
    }
    found
}

/// Puts a block at the end, and drops those that it covers.
pub fn add(blocks: &mut Vec<Block>, block: Block) -> Result<(), NoMemory>
    ensures { OnOk result (blocks.new.items ≡ with_block blocks.old.items block) }
{
    drop_covered(blocks, &block);
    blocks.push(block)?;
    Ok(())
}

fn drop_covered(blocks: &mut Vec<Block>, over: &Block)
    ensures { blocks.new.items ≡ filter (λ b. not (covers over.now b)) blocks.old.items }
{
    blocks.retain(|block| !covers(over, block));
}

/// Frees the live block at an address.
pub fn free(blocks: &mut Vec<Block>, addr: u32, free: Origin)
    ensures { blocks.new.items ≡ map (freed_by addr free) blocks.old.items }
{
    let count = blocks.len();
    'each: for place in 0..count {
        blocks[place] = freed_by(blocks[place], addr, free);
    }
}

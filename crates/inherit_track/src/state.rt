//! The state of one register.
ghost use Rattle.std.specs.Prelude.{◌≡◌, ◌≢◌, ◌<◌, ◌↔◌, IsTrue};
ghost use Rattle.inherit_track.specs.declared.state.Held.{Held};
ghost use Rattle.inherit_track.specs.declared.state.RegState.TheVariants as reg;
ghost use Rattle.pl_base.specs.declared.layout.TheConstants.{MEMORY_BYTES};
ghost use Rattle.inherit_track.specs.States.{LiesIn, IsInRange};
ghost use Rattle.inherit_track.specs.inner.Held as held;
ghost use Rattle.inherit_track.specs.inner.Oldest.{older_of};

use pl_base::LoadWidth;

/// The source of a held value: the load of record `number`, from 1, that reads from `addr` on. An address is below
/// 2^24.
#[derive(Clone, Copy, Debug, PartialEq, Eq)]
pub struct Held {
    pub addr: u32,
    pub width: LoadWidth,
    pub number: u32,
}

/// What is known of a register's mask.
#[derive(Clone, Copy, Debug, PartialEq, Eq)]
pub enum RegState {
    /// Its mask, below 16.
    Known(u8),
    /// It is the mask that this load finds.
    Held(Held),
}

// Whether it is held.
#[inline]
pub(crate) fn is_held(state: RegState) -> bool
    ensures { result ≡ held.is_held state }
{
    matches!(state, RegState::Held(_))
}

// The state once the mask of a source is known.
pub(crate) fn resolved(state: RegState, from: Held, mask: u8) -> RegState
    ensures known { state ≡ reg.Held from → result ≡ reg.Known mask }
    ensures others { state ≢ reg.Held from → result ≡ state }
    ensures range { IsInRange state → mask < 16 → IsInRange result }
{
    match state {
        RegState::Held(held) if held == from => RegState::Known(mask),
        _ => state,
    }
}

// Whether it is held, and a byte of its source lies in the block.
pub(crate) fn is_in_block(state: RegState, block_start: u32, block: u8) -> bool
    requires range { IsInRange state }
    requires start { block_start < MEMORY_BYTES }
    ensures { IsTrue result ↔ ((from : Held) × (state ≡ reg.Held from) × LiesIn block_start block from) }
{
    match state {
        RegState::Known(_) => false,
        RegState::Held(held) => {
            held.addr < block_start + u32::from(block)
                && block_start < held.addr + u32::from(held.width.bytes())
        }
    }
}

// The lower one of the number and that of the state's source.
pub(crate) fn older(least: Option<u32>, state: RegState) -> Option<u32>
    ensures { result ≡ older_of least state }
{
    match (least, state) {
        (_, RegState::Known(_)) => least,
        (None, RegState::Held(held)) => Some(held.number),
        (Some(number), RegState::Held(held)) => Some(number.min(held.number)),
    }
}

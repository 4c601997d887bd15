//! Whether two events conflict, and by what.
ghost use Rattle.std.specs.Prelude.{◌≡◌, ◌↔◌, ℕ, ◌<◌, List, IsTrue};
ghost use Rattle.pl_event.specs.declared.event.Event.{Event};
ghost use Rattle.pl_event.specs.declared.log.Line.{Line};
ghost use Rattle.pl_event.specs.Conflicts.{access_of, ShareBlock, MeetByAlert};
ghost use Rattle.log_check.specs.inner.Touches.{access_in};
ghost use Rattle.log_check.specs.inner.Traced.{IsPart};

use crate::alerts::is_access;
use crate::trace::Part;
use pl_event::{Kind, is_alert};

/// A block, and whether it is written.
#[derive(Clone, Copy)]
pub(crate) struct Touched {
    block: u32,
    is_store: bool,
}

// What a load or a store touches.
fn block_of(size: u8, kind: &Kind) -> Option<Touched>
    requires { 0 < size }
    ensures { access_in result ≡ access_of size kind.now }
{
    let size = u32::from(size);
    match *kind {
        Kind::Ld {
            width: _,
            rd: _,
            rb: _,
            addr,
        } => Some(Touched {
            block: addr / size,
            is_store: false,
        }),
        Kind::St {
            width: _,
            rv: _,
            rb: _,
            addr,
        } => Some(Touched {
            block: addr / size,
            is_store: true,
        }),
        _ => None,
    }
}

// The same, where only a part of the event is known.
fn block_in(size: u8, part: Part) -> Option<Touched>
    requires { 0 < size }
    ensures { (lines : List Line) (event : Event) (n : ℕ) → IsPart lines event n part →
        access_in result ≡ access_of size event.kind }
{
    let size = u32::from(size);
    match part {
        Part::Load(addr) => Some(Touched {
            block: addr / size,
            is_store: false,
        }),
        Part::Store(addr) => Some(Touched {
            block: addr / size,
            is_store: true,
        }),
        Part::Other | Part::Alert(_) => None,
    }
}

// Whether both touch one block, and one writes it.
fn is_shared(a: Option<Touched>, b: Option<Touched>) -> bool
    ensures { IsTrue result ↔ ShareBlock (access_in a) (access_in b) }
{
    match a {
        Some(a) => match b {
            Some(b) => a.block == b.block && (a.is_store || b.is_store),
            None => false,
        },
        None => false,
    }
}

/// Whether an event with this part and one of this kind are accesses to one block, and one is a store.
pub(crate) fn share_block(size: u8, a: Part, b: &Kind) -> bool
    requires { 0 < size }
    ensures { (lines : List Line) (event : Event) (n : ℕ) → IsPart lines event n a →
        IsTrue result ↔ ShareBlock (access_of size event.kind) (access_of size b.now) }
{
    is_shared(block_in(size, a), block_of(size, b))
}

/// Whether of an event with this part and one of this kind one is an alert event, and the other a load, a store or an
/// alert event.
pub(crate) fn meet_by_alert(a: Part, b: &Kind) -> bool
    ensures { (lines : List Line) (event : Event) (n : ℕ) → IsPart lines event n a →
        IsTrue result ↔ MeetByAlert event.kind b.now }
{
    match a {
        Part::Other => false,
        Part::Load(_) | Part::Store(_) => is_alert(b),
        Part::Alert(_) => is_access(b) || is_alert(b),
    }
}

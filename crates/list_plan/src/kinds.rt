//! The operations of an event, by its kind.
ghost use Rattle.std.specs.Prelude.{◌≡◌, ℕ, ◌+◌, ◌<◌, ◌≤◌, [], IfOk, OnOk};
ghost use Rattle.pl_base.specs.declared.layout.TheConstants.{REGISTERS};
ghost use Rattle.pl_event.specs.declared.event.Kind.{Kind};
ghost use Rattle.pl_event.specs.Valid.{HasValidFields};
ghost use Rattle.lifeguard.specs.Shadow.{state_of};
ghost use Rattle.lifeguard.specs.State.{Masks, State};
ghost use Rattle.order_core.specs.Shapes.{after_shapes, fill};
ghost use Rattle.shadow_layout.specs.Operations.{shapes};
ghost use Rattle.shadow_layout.specs.Logs.{record_shapes};
ghost use Rattle.list_plan.specs.inner.Fills.{Fills, words_of};
ghost use Rattle.list_plan.specs.inner.Rooms.{HasRoom, RecordHasRoom};
ghost use Rattle.list_plan.specs.inner.Rooms as rooms;

use crate::blocks::Change;
use crate::filler::Filler;
use lifeguard::{Lifeguard, PlainMonitor, RangeKind};
use order_core::Op;
use pl_base::NoMemory;
use pl_event::{Kind, PageKind, Record};
use shadow_frames::all_nibbles;
use std::alloc::Global;

// The mask of the register that an event of a hart stores; 0 where it stores none.
fn stored_mask<L: Lifeguard>(monitor: &PlainMonitor<L>, hart: u8, kind: &Kind) -> u8
    requires hart { hart < monitor.now.harts }
    requires valid { ∥ HasValidFields kind.now ∥₁ }
    ensures { result ≡ rooms.stored_mask (state_of monitor.now.shadow).masks hart kind.now }
{
    match kind {
        Kind::St {
            width: _,
            rv,
            rb: _,
            addr: _,
        } => monitor.mask(hart, *rv),
        _ => 0,
    }
}

impl Filler {
    // Adds the operations of an event, whose hart has this mask in the register that is stored.
    fn perform<L: Lifeguard>(
        &mut self,
        guard: L,
        size: u8,
        mask: u8,
        kind: Kind,
    ) -> Result<(), NoMemory>
        requires { ∥ HasRoom (L.rules guard) (words_of self.old) kind ∥₁ }
        ensures { (hart : ℕ) (masks : Masks) → mask ≡ rooms.stored_mask masks hart kind
            → OnOk result (Fills self.old self.new (shapes (L.rules guard) size hart masks (words_of self.old) kind)) }
    {
        match kind {
            Kind::Ld {
                width: _,
                rd: _,
                rb: _,
                addr,
            } => self.load(guard, size, addr),
            Kind::St {
                width,
                rv: _,
                rb: _,
                addr,
            } => self.store(guard, size, addr, width.bytes() as u32, mask),
            Kind::Al { addr, len } => {
                self.change_range(
                    guard,
                    Change::Range {
                        kind: RangeKind::Al,
                    },
                    addr,
                    len,
                )
            }
            Kind::Fr { addr, len } => {
                self.change_range(
                    guard,
                    Change::Range {
                        kind: RangeKind::Fr,
                    },
                    addr,
                    len,
                )
            }
            Kind::Mp { page, count } => {
                let filling = all_nibbles(guard.page_state(PageKind::Data));
                self.map_pages(page as u32, count as u32, filling)
            }
            Kind::Um { page, count } => self.unmap_pages(page as u32, count as u32),
            Kind::Rd { addr, len } => {
                self.change_range(
                    guard,
                    Change::Range {
                        kind: RangeKind::Rd,
                    },
                    addr,
                    len,
                )
            }
            Kind::Wr { addr, len } => self.read_range(addr, len),
            Kind::Op { .. }
            | Kind::Mv { .. }
            | Kind::Im { .. }
            | Kind::Br { .. }
            | Kind::Jr { .. }
            | Kind::Bf { .. }
            | Kind::Ex
            | Kind::Ft { .. } => Ok(()),
        }
    }

    // Adds the operations of a record; a notice has none.
    fn perform_record<L: Lifeguard>(
        &mut self,
        monitor: &PlainMonitor<L>,
        size: u8,
        what: &Record,
    ) -> Result<(), NoMemory>
        requires { ∥ RecordHasRoom (L.rules monitor.now.guard) (words_of self.old) monitor.now.harts what.now ∥₁ }
        ensures { OnOk result (Fills self.old self.new
            (record_shapes (L.rules monitor.now.guard) size (state_of monitor.now.shadow) (words_of self.old)
            what.now)) }
    {
        match what {
            Record::Event(event) => {
                let mask = stored_mask(monitor, event.hart, &event.kind);
                self.perform(monitor.guard(), size, mask, event.kind)
            }
            Record::Notice { hart: _, of: _ } => Ok(()),
        }
    }

    // The operations of a record; it makes them on the words.
    pub(crate) fn operations_of<L: Lifeguard>(
        &mut self,
        alloc: Global,
        monitor: &PlainMonitor<L>,
        size: u8,
        what: &Record,
    ) -> Result<Vec<Op>, NoMemory>
        requires room { ∥ RecordHasRoom (L.rules monitor.now.guard) (words_of self.old) monitor.now.harts what.now ∥₁ }
        requires none { self.old.operations.items ≡ [] }
        ensures none { OnOk result (self.new.operations.items ≡ []) }
        ensures words { OnOk result (words_of self.new ≡ after_shapes (words_of self.old)
            (record_shapes (L.rules monitor.now.guard) size (state_of monitor.now.shadow) (words_of self.old)
            what.now)) }
        ensures operations { IfOk result (λ operations. operations.items ≡ fill (words_of self.old)
            (record_shapes (L.rules monitor.now.guard) size (state_of monitor.now.shadow) (words_of self.old)
            what.now)) }
    {
        self.perform_record(monitor, size, what)?;
        Ok(self.take(alloc))
    }
}

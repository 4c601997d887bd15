//! What the memory says of a refused access, and the heap of a live block.

use guest_heap::Heap;
use guest_mem::{MemFault, PagedMem};
use std::test::Fail;

#[test]
fn a_refused_access_names_the_first_byte(rt: HostRuntime) -> Result<(), Fail> {
    let mut mem = PagedMem::new(rt.alloc())?;
    mem.map(4095, 1, false)?;
    mem.map(16, 1, true)?;
    let past = MemFault::Unmapped { byte: 0x100_0000 };
    assert_eq!(rt; mem.read(0xff_ffff, 2), Err(past));
    assert_eq!(rt; mem.write(0x1_0000, 4, 1), Err(MemFault::ReadOnly));
    assert_eq!(rt; mem.write(0xff_fffe, 2, 0x1_0203), Ok(()));
    assert_eq!(rt; mem.read(0xff_ffff, 1), Ok(2));
    assert!(rt; mem.is_mapped(16));
    Ok(())
}

#[test]
fn a_live_block_has_the_asked_size(rt: HostRuntime) -> Result<(), Fail> {
    let mut heap = Heap::new(rt.alloc())?;
    assert_eq!(rt; heap.alloc(17)?, Some(0x40_0000));
    assert_eq!(rt; heap.live(0x40_0000), Some(17));
    assert_eq!(rt; heap.live(0x40_0010), None);
    Ok(())
}

//! The event of each call of the kernel.

use guest_kernel::{CallArgs, Kernel, KernelStep};
use guest_mem::PagedMem;
use pl_base::NoMemory;
use pl_event::Kind;
use std::test::Fail;

fn call(kernel: &mut Kernel, a7: u32, a0: u32, a1: u32, a2: u32) -> Result<KernelStep, NoMemory> {
    kernel.call(CallArgs { a7, a0, a1, a2 })
}

fn went(a0: u32, kind: Kind) -> KernelStep {
    KernelStep::Went { a0, kind }
}

#[test]
fn blocks_have_events_of_the_asked_size(rt: HostRuntime) -> Result<(), Fail> {
    let alloc = rt.alloc();
    let mut kernel = Kernel::new(alloc, PagedMem::new(alloc)?, Vec::new(alloc))?;
    let addr = 0x40_0000;
    let taken = Kind::Al { addr, len: 17 };
    assert_eq!(rt; call(&mut kernel, 2, 17, 0, 0)?, went(addr, taken));
    let freed = Kind::Fr { addr, len: 17 };
    assert_eq!(rt; call(&mut kernel, 3, addr, 0, 0)?, went(0, freed));
    let refused = Kind::Bf { addr };
    assert_eq!(rt; call(&mut kernel, 3, addr, 0, 0)?, went(u32::MAX, refused));
    Ok(())
}

#[test]
fn bytes_and_pages_have_events_of_what_was_moved(rt: HostRuntime) -> Result<(), Fail> {
    let alloc = rt.alloc();
    let input = Vec::from_array(alloc, [1, 2])?;
    let mut kernel = Kernel::new(alloc, PagedMem::new(alloc)?, input)?;
    let addr = 0x80_0000;
    let mapped = Kind::Mp {
        page: 2048,
        count: 1,
    };
    assert_eq!(rt; call(&mut kernel, 4, addr, 1, 0)?, went(0, mapped));
    let read = Kind::Rd { addr, len: 2 };
    assert_eq!(rt; call(&mut kernel, 6, 0, addr, 9)?, went(2, read));
    assert_eq!(rt;
        call(&mut kernel, 6, 0, addr, 9)?,
        went(0, Kind::Im { rd: 10 })
    );
    let sent = Kind::Wr { addr, len: 3 };
    assert_eq!(rt; call(&mut kernel, 7, 0, addr, 3)?, went(3, sent));
    let unmapped = Kind::Um {
        page: 2048,
        count: 1,
    };
    assert_eq!(rt; call(&mut kernel, 5, addr, 1, 0)?, went(0, unmapped));
    assert_eq!(rt; kernel.output(), [1, 2, 0].as_slice());
    Ok(())
}

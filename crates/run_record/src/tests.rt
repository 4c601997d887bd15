//! A log that is recorded anew from its source.

use crate::upgrade_source;
use log_text::{LogCause, LogEnd, LogFault};
use pl_base::{MemSource, ReadEnd};
use std::alloc::Global;
use std::test::Fail;

/// A source of these bytes, five at a time, that fails at these calls.
fn source_of(alloc: Global, text: &str, fails: &[u32]) -> Result<MemSource, Fail> {
    let bytes = text.as_bytes().to_vec(alloc)?;
    Ok(MemSource::new(bytes, 5, fails.to_vec(alloc)?))
}

#[test]
fn notices_and_arcs_are_made_anew(rt: HostRuntime) -> Result<(), Fail> {
    let text = concat!(
        "PLOG 1 harts 2 block 16\npage 256 1 data\nh1 ! 0:1\nh0 wr 100000 4\nh1 im 5 < 0:1\n",
        "h0 st w 5 6 100000\nh1 ld w 7 6 100000 < 0:2\nh1 ld w 7 6 100004 < 0:2\n",
    );
    let wanted = concat!(
        "PLOG 2 harts 2 block 4\npage 256 1 data\nh1 ! 0:1\nh0 wr 100000 4\nh1 im 5\n",
        "h0 st w 5 6 100000\nh1 ld w 7 6 100000 < 0:2\nh1 ld w 7 6 100004\n",
    );
    let made = upgrade_source(rt.alloc(), &mut source_of(rt.alloc(), text, &[])?, 1000);
    assert!(rt; made.is_ok());
    if let Ok(made) = made {
        assert_eq!(rt; made.as_slice(), wanted.as_bytes());
    }
    Ok(())
}

#[test]
fn a_log_that_is_not_read_to_its_end_has_no_text(rt: HostRuntime) -> Result<(), Fail> {
    let text = "PLOG 1 harts 1 block 16\nh0 im 5\nh0 ex\nh0 im 6\n";
    let fault = LogFault {
        line: 4,
        cause: LogCause::Ended,
    };
    let ended = upgrade_source(rt.alloc(), &mut source_of(rt.alloc(), text, &[])?, 1000);
    assert_eq!(rt; ended.err(), Some(LogEnd::Fault(fault)));
    let failed = upgrade_source(rt.alloc(), &mut source_of(rt.alloc(), text, &[7])?, 1000);
    assert_eq!(rt; failed.err(), Some(LogEnd::Read(ReadEnd::Fault)));
    let long = upgrade_source(rt.alloc(), &mut source_of(rt.alloc(), text, &[])?, 20);
    assert_eq!(rt; long.err(), Some(LogEnd::Read(ReadEnd::TooLong)));
    Ok(())
}

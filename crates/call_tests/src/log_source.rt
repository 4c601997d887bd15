//! A log read from a source in pieces, and its fault told twice.

use log_text::{LogCause, LogEnd, LogFault, LogStream, log_laws, one_fault, read_log, read_source};
use pl_base::MemSource;
use std::alloc::Global;
use std::test::Fail;

/// A source of these bytes, five at a time.
fn source_of(alloc: Global, text: &str) -> Result<MemSource, Fail> {
    let bytes = text.as_bytes().to_vec(alloc)?;
    Ok(MemSource::new(bytes, 5, Vec::new(alloc)))
}

#[test]
fn a_source_has_the_log_of_its_bytes(rt: HostRuntime) -> Result<(), Fail> {
    log_laws();
    let text = "PLOG 1 harts 2 block 16\npage 16 1 data\nh1 ! 0:1\nh0 wr 10000 4\nh1 im 5 < 0:1\n";
    let read = read_source(rt.alloc(), &mut source_of(rt.alloc(), text)?, 100);
    assert!(rt; read.is_ok() && read_log(rt.alloc(), text.as_bytes()).is_ok());
    if let Ok(log) = read {
        assert_eq!(rt; (log.harts, log.block, log.lines.len()), (2, 16, 3));
    }
    Ok(())
}

#[test]
fn a_fault_is_told_again(rt: HostRuntime) -> Result<(), Fail> {
    let text = "PLOG 1 harts 1 block 16\nh0 ex\nh0 im 5\nh0 im 6\n";
    one_fault(text.as_bytes());
    let fault = LogEnd::Fault(LogFault {
        line: 3,
        cause: LogCause::Ended,
    });
    let mut source = source_of(rt.alloc(), text)?;
    let opening = LogStream::open(rt.alloc(), &mut source, 100);
    assert!(rt; opening.is_ok());
    if let Ok(opening) = opening {
        let mut stream = opening.stream;
        assert!(rt; stream.next(&mut source).is_ok());
        assert_eq!(rt; stream.next(&mut source).err(), Some(fault));
        assert_eq!(rt; stream.next(&mut source).err(), Some(fault));
    }
    Ok(())
}

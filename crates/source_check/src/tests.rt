//! Logs read from a source in pieces, and their order.
ghost use Rattle.std.specs.Prelude.{◌<◌, ◌^◌};

use crate::check_source;
use log_check::UnorderedPair;
use log_text::{LogCause, LogEnd, LogFault};
use pl_base::{MemSource, ReadEnd};
use pl_event::Point;
use std::alloc::Global;
use std::test::Fail;

/// Two loads, and then each hart stores where the other has loaded.
const HEAD: &str =
    "PLOG 1 harts 2 block 16\npage 256 1 data\nh0 ld w 5 6 100000\nh1 ld w 5 6 100010\n";

/// What is found in a source of these texts, one after the other, that is read five bytes at a time.
fn found(
    alloc: Global,
    texts: &[&str],
    limit: u32,
) -> Result<Result<Option<UnorderedPair>, LogEnd>, Fail>
    requires { limit < 2 ^ 31 }
{
    let mut bytes = Vec::new(alloc);
    for text in texts {
        bytes.extend_from_slice(text.as_bytes())?;
    }
    let mut source = MemSource::new(bytes, 5, Vec::new(alloc));
    Ok(check_source(alloc, &mut source, limit))
}

fn pair() -> UnorderedPair {
    UnorderedPair {
        earlier: Point { hart: 1, number: 1 },
        later: Point { hart: 0, number: 2 },
    }
}

#[test]
fn an_ordered_log_has_no_pair(rt: HostRuntime) -> Result<(), Fail> {
    let tail = "h0 st w 7 6 100010 < 1:1\nh1 st w 7 6 100000 < 0:1\n";
    assert_eq!(rt; found(rt.alloc(), &[HEAD, tail], 1000)?, Ok(None));
    Ok(())
}

#[test]
fn the_first_pair_is_named(rt: HostRuntime) -> Result<(), Fail> {
    let tail = "h0 st w 7 6 100010\nh1 st w 7 6 100000\n";
    assert_eq!(rt; found(rt.alloc(), &[HEAD, tail], 1000)?, Ok(Some(pair())));
    Ok(())
}

#[test]
fn a_fault_after_the_pair_is_told(rt: HostRuntime) -> Result<(), Fail> {
    let tail = "h0 st w 7 6 100010\nh1 im 5\nh1 st w 7 6 100001\n";
    let fault = LogEnd::Fault(LogFault {
        line: 7,
        cause: LogCause::Access,
    });
    assert_eq!(rt; found(rt.alloc(), &[HEAD, tail], 1000)?, Err(fault));
    Ok(())
}

#[test]
fn a_log_past_the_limit_is_too_long(rt: HostRuntime) -> Result<(), Fail> {
    let too_long = LogEnd::Read(ReadEnd::TooLong);
    let tail = "h0 st w 7 6 100010\nh1 im 5\n";
    assert_eq!(rt; found(rt.alloc(), &[HEAD, tail], 90)?, Err(too_long));
    Ok(())
}

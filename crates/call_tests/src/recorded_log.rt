//! A recorder of blocks of 16 bytes over the events of a log without arcs and notices.
ghost use Rattle.std.specs.Prelude.{◌≤◌, length};
ghost use Rattle.pl_base.specs.declared.layout.TheConstants.{MAX_RECORDS};
ghost use Rattle.pl_event.specs.Runs.{IsRunLog};

use arc_capture::recapture;
use log_text::{log_laws, read_log, write_log};
use pl_base::NoMemory;
use pl_base::layout::BLOCK_BYTES;
use pl_event::Log;
use std::alloc::Global;
use std::process::Abort;

/// The text of the log that a recorder makes of the events of a log.
fn recorded(alloc: Global, log: &Log) -> Result<Vec<u8>, NoMemory>
    requires log { IsRunLog log.now }
    requires few { length log.now.lines ≤ MAX_RECORDS }
{
    log_laws();
    let made = recapture(alloc, log, BLOCK_BYTES)?;
    write_log(alloc, &made)
}

/// Records the events of a text, which come to another text.
fn comes_to<R: Abort>(rt: &R, alloc: Global, text: &str, wanted: &str) {
    assert!(rt; text.len() < 1000);
    let read = read_log(alloc, text.as_bytes());
    assert!(rt; read.is_ok());
    if let Ok(log) = read {
        log_laws();
        let made = recorded(alloc, &log);
        assert!(rt; made.is_ok());
        if let Ok(bytes) = made {
            assert_eq!(rt; bytes.as_slice(), wanted.as_bytes());
        }
    }
}

#[test]
fn an_access_after_an_alert_event_needs_no_arc(rt: HostRuntime) {
    let events = concat!(
        "PLOG 1 harts 2 block 16\npage 256 1 data\npage 1024 1 heap\nh0 st w 5 6 100000\nh1 ld w 7 6 100004\n",
        "h0 al 400000 16\nh1 ld w 7 6 100008\n",
    );
    let log = concat!(
        "PLOG 1 harts 2 block 16\npage 256 1 data\npage 1024 1 heap\nh0 st w 5 6 100000\nh1 ld w 7 6 100004 < 0:1\n",
        "h1 ! 0:2\nh0 al 400000 16\nh1 ld w 7 6 100008\n",
    );
    comes_to(&rt, rt.alloc(), events, log);
}

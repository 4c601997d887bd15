//! A log that was read is written as the text that it was read from.

use log_text::{read_log, write_log};
use std::alloc::Global;
use std::process::Abort;

/// Reads the text and writes it again.
fn comes_back<R: Abort>(rt: &R, alloc: Global, text: &str) {
    assert!(rt; text.len() < 1000);
    let read = read_log(alloc, text.as_bytes());
    assert!(rt; read.is_ok());
    if let Ok(log) = read {
        let written = write_log(alloc, &log);
        assert!(rt; written.is_ok());
        if let Ok(bytes) = written {
            assert_eq!(rt; bytes.as_slice(), text.as_bytes());
        }
    }
}

#[test]
fn a_log_with_arcs_and_a_notice_comes_back(rt: HostRuntime) {
    let log = concat!(
        "PLOG 2 harts 8 block 4\npage 16 2 data\npage 4094 2 stack\nh1 ! 0:2\nh0 ld bu 5 33 1001f0\n",
        "h0 al 400000 65536\nh7 mv 8 9 < 0:1,1:1\nh1 ft readonly ffffffff\n",
    );
    comes_back(&rt, rt.alloc(), log);
}

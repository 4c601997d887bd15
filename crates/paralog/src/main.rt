//! The program: standard input, output and error round the top call, with the standard probes, and the status that the
//! process ends with.
#![tactic(auto)]

mod ended;

use ended::{exit_code, status_of};
use standard_io::{Reading, Writing, words};
use std::process::ExitCode;

fn main(rt: HostRuntime) -> ExitCode {
    let alloc = rt.alloc();
    let mut source = Reading::new(rt.stdin());
    let mut out = Writing::new(rt.stdout());
    let mut notes = Writing::new(rt.stderr());
    // A word that is not UTF-8 is in no form, and neither are no words.
    let words = words(&rt, alloc);
    let status = status_of(&rt, alloc, words, &mut source, &mut out, &mut notes);
    exit_code(status)
}

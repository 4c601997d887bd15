//! The words of the command line.
use pl_base::NoMemory;
use std::alloc::Global;
use std::env::Env;
use std::io::ErrorKind;
use std::{env, io};

fn args<R: AllocGlobal + Env>(rt: &R, alloc: Global) -> io::Result<Vec<String>> {
    let mut args = env::args(rt)?;
    let _program = args.next();
    Ok(args.collect(alloc)?)
}

/// The words after the program's name; none where one of them is not UTF-8.
pub fn words<R: AllocGlobal + Env>(rt: &R, alloc: Global) -> Result<Vec<String>, NoMemory> {
    match args(rt, alloc) {
        Ok(words) => Ok(words),
        Err(error) if error.kind() == ErrorKind::OutOfMemory => Err(NoMemory),
        Err(_) => Ok(Vec::new(alloc)),
    }
}

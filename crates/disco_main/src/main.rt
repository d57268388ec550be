//! The program: the monitor over the system's files and its standard output.
#![tactic(auto)]

use guest_core::RunRecord;
use monitor_run::disco;
use outside_io::{FileShelf, FreeGate, OutSink};
use std::alloc::{AllocError, Global};
use std::io::ErrorKind;
use std::process::ExitCode;
use std::rt::Env;
use std::{env, io};

/// Memory was wanting for the words.
const MEMORY: u8 = 1;

/// The words after the program's name. Words that aren't text are none of the forms, and so are no words.
fn words<R: Env + AllocGlobal>(rt: &R, alloc: Global) -> Result<Vec<String>, AllocError> {
    match env::args(rt) {
        Ok(mut arguments) => {
            let _program = arguments.next();
            arguments.collect(alloc)
        }
        Err(error) if error.kind() == ErrorKind::OutOfMemory => Err(AllocError),
        Err(_) => Ok(Vec::new(alloc)),
    }
}

fn main(rt: HostRuntime) -> ExitCode {
    let alloc = rt.alloc();
    let Ok(words) = words(&rt, alloc) else {
        return ExitCode::from(MEMORY);
    };
    let mut shelf = FileShelf::new(alloc, &rt);
    let mut sink = OutSink::new(&rt);
    let mut out = RunRecord::empty(alloc);
    ExitCode::from(disco(
        &rt, alloc, &words, &mut shelf, &mut sink, &FreeGate, &mut out,
    ))
}

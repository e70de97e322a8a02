//! The program over the runtime: its words, standard input, output and error.

use crate::fault::Fault;
use crate::program::perform;
use lp_trace::Counted;
use std::env::{self, Env};
use std::io;
use std::process::ExitCode;
use std::sync::Wait;
use std::thread::Threads;

/// Does what the program's words ask for, over standard input and output. Where that fails, says on
/// standard error why, unless standard output does, and ends with the fault's status. Threads are started by the
/// first handle, which in `main` is the runtime as well.
pub fn start<T: Threads + Wait + Sync>(threads: &T, rt: &HostRuntime) -> ExitCode {
    match started(threads, rt) {
        Ok(()) => ExitCode::SUCCESS,
        Err(fault) => {
            // The status tells it too, so a standard error that fails changes nothing.
            let _ = fault.tell(&mut rt.stderr());
            ExitCode::from(fault.status())
        }
    }
}

fn started<T: Threads + Wait + Sync>(threads: &T, rt: &HostRuntime) -> Result<(), Fault> {
    let words = words(rt)?;
    perform(
        threads,
        rt.alloc(),
        words.as_slice(),
        &mut Counted::new(rt.stdin()),
        &mut Counted::new(io::writer(rt)),
    )
}

/// The program's words.
fn words<R: Env + AllocGlobal>(rt: &R) -> Result<Vec<String>, Fault> {
    Ok(env::args(rt)?.collect(rt.alloc())?)
}

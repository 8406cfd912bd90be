//! The program: it hands the words of its command line and the standard streams to the top call, and
//! ends with the number of its status.
#![tactic(auto)]

use cg_io::{NoMemory, StdSink, StdSource};
use llc_top::{Status, run_llc};
use std::env;
use std::io::ErrorKind;
use std::process::ExitCode;

/// The words of the command line, the program's name first. Words that are no text stand for none,
/// which no run accepts.
fn words_of(rt: &HostRuntime) -> Result<Vec<String>, NoMemory> {
    let mut words = Vec::new(rt.alloc());
    match env::args(rt) {
        Ok(args) => {
            for word in args {
                words.push(word)?;
            }
        }
        Err(fault) if fault.kind() == ErrorKind::OutOfMemory => return Err(NoMemory),
        Err(_) => (),
    }
    Ok(words)
}

fn main(rt: HostRuntime) -> ExitCode {
    let Ok(words) = words_of(&rt) else {
        return ExitCode::from(Status::NoMemory.number());
    };
    let mut src = StdSource::new(rt.stdin());
    let mut out = StdSink::new(rt.stdout());
    let mut err = StdSink::new(rt.stderr());
    let status = run_llc(rt.alloc(), &words, &mut src, &mut out, &mut err);
    ExitCode::from(status.number())
}

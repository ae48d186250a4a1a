//! The program `famsync`.
#![tactic(auto)]

mod program;
mod reporting;

use crate::program::perform;
use std::io::{BufWriter, ErrorKind, Stdout};
use std::process::ExitCode;
use std::{env, io};

fn main(rt: HostRuntime) -> ExitCode {
    match words_and_output(&rt) {
        Ok((words, mut out)) => {
            let mut err = rt.stderr();
            ExitCode::from(perform(&rt, rt.alloc(), &words, &mut out, &mut err))
        }
        Err(failure) => {
            let _ = eprintln!(rt; "famsync: {failure}");
            match failure.kind() {
                ErrorKind::InvalidData => ExitCode::from(2),
                _ => ExitCode::from(3),
            }
        }
    }
}

// A word that isn't UTF-8 is invalid data. The only other failure is a lack of memory.
fn words_and_output(rt: &HostRuntime) -> io::Result<(Vec<String>, BufWriter<Stdout>)> {
    let alloc = rt.alloc();
    let words = env::args(rt)?.collect(alloc)?;
    let out = BufWriter::new(alloc, rt.stdout())?;
    Ok((words, out))
}

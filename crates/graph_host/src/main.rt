//! The program `graph_host`: an offline host for graphs of audio processors.
//!
//! `run` is all that the program does: `main` makes the real folder and sink, hands them to `run` with the words of
//! the command line, prints the text of the end on standard error and ends with its status. What `run` promises holds
//! of every folder and sink, for each of its modes: `render` writes exactly the graph's answer to a WAV file and
//! reports the plan, `compile` reports the plan, `check` judges a plan, `demo` shows a graph that is made of a
//! number. Every plan that it makes is certified and has the least latency, delay and buffers; a write or a report
//! that fails leaves a first part of what was to come; nothing else changes; and every other end has its stated
//! cause.
//!
//! It stands on host_modes, which does the work of each mode, on what command_words says that the words ask for, and on
//! gh_outside for files and the report.
#![tactic(auto)]

mod runs;
mod status;
mod top_call;

use gh_outside::{DiskFolder, WriterSink};
pub use host_modes::End;
pub use runs::Run;
use std::env;
use std::io::{self, ErrorKind};
use std::process::ExitCode;
use std::rt::Env;
pub use top_call::run;

/// The status where the system does not give the words, for another cause than memory.
const NO_WORDS: u8 = 15;

/// The words after the program's name.
fn words<R: Env + AllocGlobal>(rt: &R) -> io::Result<Vec<String>> {
    let mut words = Vec::new(rt.alloc());
    for word in env::args(rt)?.skip(1) {
        words
            .push(word)
            .map_err(|_| io::Error::from(ErrorKind::OutOfMemory))?;
    }
    Ok(words)
}

fn main(rt: HostRuntime) -> ExitCode {
    let words = match words(&rt) {
        Ok(words) => words,
        Err(error) => match error.kind() {
            ErrorKind::OutOfMemory => return print_end(&rt, status::ended(End::Memory, None, None)),
            _ => {
                let _ = eprintln!(rt; "graph_host: the words were not given");
                return ExitCode::from(NO_WORDS);
            }
        },
    };
    let mut folder = DiskFolder::new(&rt);
    let mut report = WriterSink::new(io::writer(&rt));
    let run = run(&rt, rt.alloc(), words, &mut folder, &mut report);
    drop(folder);
    print_end(&rt, run)
}

/// Prints the text of an end, but for a work that is done or a plan that is refused, and gives its status.
fn print_end<R: Eprint>(rt: &R, run: Run) -> ExitCode {
    match run.end {
        End::Done | End::No { .. } => {}
        _ => {
            let _ = eprintln!(rt; "graph_host: {}", run.end);
        }
    }
    ExitCode::from(run.status)
}

#[cfg(test)]
mod tests;

//! The program `draw_plan`: pictures of graphs and of their plans.
//!
//! `draw_plan GRAPH [PLAN]` writes an SVG of a graph to standard output, by its plan or without one. It reads as the
//! host's mode `check` does, and ends as it does at a fault, with the same texts on standard error and the same exit
//! statuses; a plan that is not certified is not drawn, and the host's answer then stands on standard error.
//!
//! It promises that it changes no file (`drawn`). It stands on host_modes for its readers, the verdict and the texts of
//! the ends, on plan_picture, and on gh_outside for files and standard output.
#![tactic(auto)]

mod drawing;

use drawing::{Answer, drawn, status};
use gh_outside::{DiskFolder, Sink, WriterSink};
use host_modes::End;
use std::env;
use std::io::{self, ErrorKind};
use std::process::ExitCode;
use std::rt::Env;

/// The status where the system does not give the words, for another cause than memory.
const NO_WORDS: u8 = 15;

/// The words after the program's name.
fn words<R: Env + AllocGlobal>(rt: &R) -> io::Result<Vec<String>> {
    let mut words = Vec::new(rt.alloc());
    for word in env::args(rt)?.skip(1) {
        words
            .push(word)
            .map_err(|_| io::Error::from(ErrorKind::OutOfMemory))?;
    }
    Ok(words)
}

/// Prints the text of an end on standard error, and gives its status.
fn ended<R: Eprint>(rt: &R, end: &End) -> ExitCode {
    let _ = eprintln!(rt; "draw_plan: {}", end);
    ExitCode::from(status(end))
}

/// Prints why a plan is not drawn, and gives the status of that.
fn refused<R: Eprint>(rt: &R, line: &[u8], end: &End) -> ExitCode {
    let _ = eprint!(rt; "draw_plan: {}", str::from_utf8(line).unwrap_or("no\n"));
    ExitCode::from(status(end))
}

fn main(rt: HostRuntime) -> ExitCode {
    let words = match words(&rt) {
        Ok(words) => words,
        Err(error) => match error.kind() {
            ErrorKind::OutOfMemory => return ended(&rt, &End::Memory),
            _ => {
                let _ = eprintln!(rt; "draw_plan: the words were not given");
                return ExitCode::from(NO_WORDS);
            }
        },
    };
    let mut folder = DiskFolder::new(&rt);
    let drawing = drawn(rt.alloc(), &mut folder, words.as_slice());
    drop(folder);
    match drawing {
        Ok(Answer::Picture(text)) => put(&rt, &text),
        Ok(Answer::Refused { end, line }) => refused(&rt, line.as_slice(), &end),
        Err(end) => ended(&rt, &end),
    }
}

/// Writes the picture to standard output.
fn put<R: Print + Eprint>(rt: &R, text: &String) -> ExitCode {
    match WriterSink::new(io::writer(rt)).put(text.as_bytes()) {
        Ok(()) => ExitCode::from(0),
        Err(_) => ended(rt, &End::ReportFault),
    }
}

//! What the words ask for, done.

ghost use Rattle.std.specs.Prelude.{IfOk, map, string_bytes};
ghost use Rattle.command_words.specs.Requests.{request_of, said, IsInRange};
ghost use Rattle.graph_model.specs.Refusals.{Gives, mapped};
ghost use Rattle.host_modes.specs.Asked.{Asked};
ghost use Rattle.host_modes.specs.Outside.{outside};
ghost use Rattle.host_modes.specs.Runs.{IsRun};

use crate::ends::{End, Outcome};
use crate::modes::check::check;
use crate::modes::compile::compile;
use crate::modes::demo::demo;
use crate::modes::render::render;
use command_words::{Request, WordsFault, request};
use gh_outside::{Folder, Sink};
use graph_model::Refused;
use std::alloc::Global;
use std::thread::Threads;

/// Does what is asked for.
fn answered<T: Threads + Sync, F: Folder, R: Sink>(
    rt: &T,
    alloc: Global,
    asked: Result<Request, Refused<WordsFault>>,
    folder: &mut F,
    report: &mut R,
) -> Outcome
    requires range { IfOk asked (λ r. IsInRange (said r)) }
    ensures { (a : Asked) → Gives a (mapped said asked.entry) → IsRun a
        (outside (F.held folder.old) (F.read_faults folder.old) (F.write_faults folder.old) (R.bytes report.old) (R.faults report.old))
        (outside (F.held folder.new) (F.read_faults folder.new) (F.write_faults folder.new) (R.bytes report.new) (R.faults report.new))
        result.end result.plan result.engine }
{
    match asked {
        Ok(Request::Render(request)) => render(rt, alloc, &request, folder, report),
        Ok(Request::Compile(request)) => compile(alloc, &request, folder, report),
        Ok(Request::Check(request)) => check(alloc, &request, folder, report),
        Ok(Request::Demo(request)) => demo(rt, alloc, &request, folder, report),
        Err(Refused::Fault(WordsFault::NoRequest)) => Outcome {
            end: End::Words,
            plan: None,
            engine: None,
        },
        Err(Refused::Fault(WordsFault::OutOfRange)) => Outcome {
            end: End::Seed,
            plan: None,
            engine: None,
        },
        Err(Refused::Memory) => Outcome {
            end: End::Memory,
            plan: None,
            engine: None,
        },
    }
}

/// Does what the words ask for, in one of the four modes.
///
/// What it leaves of the files and of the report, what it hands back, why it ended and how the counts stand is one
/// record, `IsRun`, over what the words ask for.
pub fn perform<T: Threads + Sync, F: Folder, R: Sink>(
    rt: &T,
    alloc: Global,
    words: &[String],
    folder: &mut F,
    report: &mut R,
) -> Outcome
    ensures { IsRun (request_of (map string_bytes words.now))
        (outside (F.held folder.old) (F.read_faults folder.old) (F.write_faults folder.old) (R.bytes report.old) (R.faults report.old))
        (outside (F.held folder.new) (F.read_faults folder.new) (F.write_faults folder.new) (R.bytes report.new) (R.faults report.new))
        result.end result.plan result.engine }
{
    let asked = request(alloc, words);
    answered(rt, alloc, asked, folder, report)
}

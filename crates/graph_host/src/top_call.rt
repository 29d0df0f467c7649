//! The top call.

ghost use Rattle.std.specs.Prelude.{◌≡◌, ◌≢◌, ◌≤◌, ◌⊎◌, Err as Refuses, None, map, string_bytes};
ghost use Rattle.command_words.specs.Requests.{request_of};
ghost use Rattle.command_words.specs.declared.fault.WordsFault.TheVariants.{NoRequest, OutOfRange};
ghost use Rattle.gh_outside.specs.Causes.{Rose};
ghost use Rattle.host_modes.specs.Asked.{IfRender, IsRender};
ghost use Rattle.host_modes.specs.Causes.{plain, EndsJust, IsCaused, IsToldEnd};
ghost use Rattle.graph_host.specs.Ends.{status_of};
ghost use Rattle.host_modes.specs.Engines.{IsPlayed};
ghost use Rattle.host_modes.specs.Readings.{IsBegun, IsWritten};
ghost use Rattle.host_modes.specs.Runs.{KeepsFiles, MayHaveBegun};
ghost use Rattle.host_modes.specs.Works.{IsAnswered};
ghost use Rattle.host_modes.specs.declared.ends.End.{End as AnyEnd};
ghost use Rattle.host_modes.specs.declared.ends.End.TheVariants as End;

use crate::runs::Run;
use crate::status::ended;
use gh_outside::{Folder, Sink};
use host_modes::perform;
use std::alloc::Global;
use std::thread::Threads;

/// Does what the words ask for. They are those after the program's name, the first is the mode, and `clap` reads the
/// others by the command of the mode, options anywhere:
///
/// - `render GRAPH IN OUT [--block N | --cuts a,b,..] [--tail T] [--compensate] [--waves] [--bits B]` reads a graph in
///   JSON and a WAV file, reports the text of the graph's plan, and writes the WAV file that the graph makes of the
///   input and of T frames of silence after it. Its samples have B bits, or as many as the input's. The frames of the
///   graph's latency come first, or are left out. It is read, rendered and written block by block, in N frames each, or
///   in these lengths, repeated in turn; no more of a file than one block is in memory, and blocks do not show in it.
/// - `compile GRAPH [--waves]` reports the text of the graph's plan, one by one or by waves.
/// - `check GRAPH PLAN` reports whether the plan is certified for the graph: `yes`, or `no RULE PLACE`.
/// - `demo SEED NODES` makes a graph of NODES nodes of a number, compiles, judges and renders it in memory, and reports
///   six lines on it.
///
/// What is said of files holds where the folder tells what it holds, what is said of the report where it tells; what is
/// said of counts holds always.
pub fn run<T: Threads + Sync, F: Folder, R: Sink>(
    rt: &T,
    alloc: Global,
    words: Vec<String>,
    folder: &mut F,
    report: &mut R,
) -> Run
    ensures status { result.status ≡ status_of result.end }

    // Words that are no request end so, and no others do; so it is with a number of `demo` that is out of range, and
    // with one name for two files.
    ensures words { EndsJust result.end End.Words (request_of (map string_bytes words.items) ≡ Refuses NoRequest) }
    ensures seed { EndsJust result.end End.Seed (request_of (map string_bytes words.items) ≡ Refuses OutOfRange) }
    ensures same_name { EndsJust result.end End.SameName (IsRender (request_of (map string_bytes words.items)) (λ q. q.input ≡ q.output)) }

    // What is left of the files: the output whole, or a first part of it; nothing else changes, and nothing at all but
    // at these two ends and where a block could not be read.
    ensures done { result.end ≡ End.Done
        → IfRender (request_of (map string_bytes words.items)) (λ q. IsWritten q (F.held folder.old) (F.held folder.new)) }
    ensures begun { IfRender (request_of (map string_bytes words.items)) (λ q. IsBegun q (F.held folder.old) (F.held folder.new)) }
    ensures kept { KeepsFiles (request_of (map string_bytes words.items)) (F.held folder.old) (F.held folder.new) }
    ensures untouched { MayHaveBegun result.end result.plan ⊎ (F.held folder.new ≡ F.held folder.old) }

    // The plan that is handed back, and what the report has gained: the text of that plan, or what is said of it. A
    // plan that was compiled is certified and has the least latency, delay and channels; and so has one that is
    // judged yes.
    ensures answered { IsAnswered (request_of (map string_bytes words.items)) (F.held folder.old) result.end result.plan
        (R.bytes report.old) (R.bytes report.new) }

    // The engine that is handed back: it keeps the graph and that plan, and stands for all frames of the input and of
    // the silence after them, or of the demonstration; where a block could not be read, for the first of them, and
    // the output holds the head and just those of these that are kept; where a write failed, for the first of them
    // too, and the output holds what it held or a first part of what these make.
    ensures played { IsPlayed (request_of (map string_bytes words.items)) (F.held folder.old)
        (F.held folder.new) result.end result.plan result.engine }

    // Why it ended: by what the files hold, unless a call of the outside failed or there was no memory.
    ensures cause { IsCaused (request_of (map string_bytes words.items)) (F.held folder.old)
        (Rose (F.read_faults folder.old) (F.read_faults folder.new)) (Rose (F.write_faults folder.old) (F.write_faults folder.new))
        (Rose (R.faults report.old) (R.faults report.new)) result.end }

    // And so it ends exactly as the files say, if no call of the outside fails and there is memory.
    ensures exact { (end : AnyEnd) → IsToldEnd (request_of (map string_bytes words.items)) (F.held folder.old) end
        → (Rose (F.read_faults folder.old) (F.read_faults folder.new) → ⊥)
        → (Rose (F.write_faults folder.old) (F.write_faults folder.new) → ⊥)
        → (Rose (R.faults report.old) (R.faults report.new) → ⊥)
        → (plain result.end ≡ plain end) ⊎ (result.end ≡ End.Memory) }

    // Counts never fall; no write fails before the output is created, and no report where no plan is handed back.
    ensures reads { F.read_faults folder.old ≤ F.read_faults folder.new }
    ensures writes { F.write_faults folder.old ≤ F.write_faults folder.new }
    ensures unwritten { MayHaveBegun result.end result.plan ⊎ (F.write_faults folder.new ≡ F.write_faults folder.old) }
    ensures reports { R.faults report.old ≤ R.faults report.new }
    ensures unreported { (result.plan ≢ None) ⊎ (R.faults report.new ≡ R.faults report.old) }
{
    let outcome = perform(rt, alloc, words.as_slice(), folder, report);
    ended(outcome.end, outcome.plan, outcome.engine)
}

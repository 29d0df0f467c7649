//! `render GRAPH IN OUT ..`: what a graph makes of a WAV file, as a WAV file, and its plan on the report.

ghost use Rattle.std.specs.Prelude.{◌≡◌, ◌≢◌, ◌≤◌, ◌*◌, ◌/◌, ◌^◌, IfErr, IfOk, Ok as Asks};
ghost use Rattle.std.specs.Option.{IfSome};
ghost use Rattle.graph_model.specs.Sound.{IsSound};
ghost use Rattle.wav_pcm.specs.Heads.{most_data};
ghost use Rattle.wav_pcm.specs.Files.{IsHead};
ghost use Rattle.wav_pcm.specs.Samples.{IsSize};
ghost use Rattle.command_words.specs.Rendering.{render_said, IsCutting};
ghost use Rattle.command_words.specs.Requests.{render};
ghost use Rattle.gh_outside.specs.Causes.{Rose};
ghost use Rattle.streaming.specs.Blocks.{AreLengths};
ghost use Rattle.host_modes.specs.Causes.{IsReadEnd, Stops};
ghost use Rattle.host_modes.specs.Ends.{end_by, IsOfFiles};
ghost use Rattle.host_modes.specs.Files.{IsJobOf, IsReadyJob};
ghost use Rattle.host_modes.specs.Forms.{written_frames, IsForm, IsFormOf};
ghost use Rattle.host_modes.specs.Outside.{outside};
ghost use Rattle.host_modes.specs.Runs.{IsRun};

use crate::ends::{End, Outcome};
use crate::modes::compile::planned;
use crate::output::files::{Rendering, rendering_of, write_file};
use crate::reading::graphs::graph_under;
use crate::reading::recordings::{Input, input_under};
use command_words::RenderRequest;
use connections::Checked;
use engine::Engine;
use gh_outside::{Failed, Folder, Sink};
use plan_model::Plan;
use std::alloc::{AllocError, Global};
use std::thread::Threads;
use streaming::{Room, StreamFault};

/// A request that is ready: the plan and its text, what is to be written, and the engine that renders it, with room for
/// its blocks.
#[derive(Drop)]
pub(crate) struct Job<'a> {
    pub(crate) plan: Plan,
    pub(crate) text: Vec<u8>,
    pub(crate) rendering: Rendering<'a>,
    pub(crate) engine: Engine,
    pub(crate) room: Room,
}

/// The longest of the lengths of blocks.
fn longest(lengths: &[u32]) -> u32
    requires { IsCutting lengths.now }
    ensures some { 1 ≤ result }
    ensures most { result ≤ 8192 }
    ensures all { AreLengths result lengths.now }
{
    let mut longest = 0;
    for length in lengths {
        longest = longest.max(*length);
    }
    longest
}

/// Takes all memory of a rendering.
fn job_of<'a>(
    alloc: Global,
    graph: &Checked,
    request: &RenderRequest<'a>,
    input: &Input,
) -> Result<Job<'a>, AllocError>
    requires sound { IsSound graph.now }
    requires cutting { IsCutting request.now.cutting }
    requires head { IsHead input.now.head }
    requires good { IsForm input.now.form }
    requires form { IsFormOf (render_said request.now) graph.now input.now.head input.now.form }
    requires short { written_frames input.now.form * (input.now.form.channels * (input.now.form.bits / 8)) ≤ most_data }
    requires few { (input.now.form.frames ≤ 2 ^ 33) × (input.now.form.skipped ≤ input.now.form.frames) }
    ensures { IfOk result (IsJobOf (render_said request.now) graph.now input.now.head) }
{
    let Ok((plan, text)) = planned(alloc, graph, request.waves) else {
        return Err(AllocError);
    };
    let rendering = rendering_of(request, input);
    let block = longest(request.cutting.as_slice());
    let engine = Engine::new(alloc, graph, &plan, block)?;
    let room = Room::new(alloc, &rendering.from, &rendering.to, block)?;
    Ok(Job {
        plan,
        text,
        rendering,
        engine,
        room,
    })
}

/// Reads the graph and the head of the input, compiles the plan, and takes all memory.
fn prepare<'a, F: Folder>(
    alloc: Global,
    folder: &mut F,
    request: &RenderRequest<'a>,
) -> Result<Job<'a>, End>
    requires size { IfSome request.now.bits IsSize }
    requires cutting { IsCutting request.now.cutting }
    ensures held { F.held folder.new ≡ F.held folder.old }
    ensures ready { IfOk result (IsReadyJob (render_said request.now) (F.held folder.old)) }
    ensures stops { IfErr result (Stops (IsReadEnd (render_said request.now) (F.held folder.old))
        (Rose (F.read_faults folder.old) (F.read_faults folder.new))) }
    ensures early { IfErr result IsOfFiles }
    ensures reads { F.read_faults folder.old ≤ F.read_faults folder.new }
    ensures writes { F.write_faults folder.new ≡ F.write_faults folder.old }
{
    let graph = graph_under(alloc, folder, request.graph)?;
    let input = input_under(folder, &graph, request)?;
    match job_of(alloc, &graph, request, &input) {
        Ok(job) => Ok(job),
        Err(AllocError) => Err(End::Memory),
    }
}

/// The end of a rendering that was reported.
fn end_of(written: Result<(), StreamFault>) -> End
    ensures { result ≡ end_by written }
{
    match written {
        Ok(()) => End::Done,
        Err(StreamFault::Read) => End::ReadFault,
        Err(StreamFault::Write) => End::WriteFault,
    }
}

/// Puts the plan on the report, and then writes the output, block by block. It takes no memory.
fn perform<T: Threads + Sync, F: Folder, R: Sink>(
    rt: &T,
    job: Job,
    request: &RenderRequest,
    folder: &mut F,
    report: &mut R,
) -> Outcome
    requires ready { IsReadyJob (render_said request.now) (F.held folder.old) job }
    requires differs { request.now.input.now ≢ request.now.output.now }
    ensures { IsRun (Asks (render (render_said request.now)))
        (outside (F.held folder.old) (F.read_faults folder.old) (F.write_faults folder.old) (R.bytes report.old) (R.faults report.old))
        (outside (F.held folder.new) (F.read_faults folder.new) (F.write_faults folder.new) (R.bytes report.new) (R.faults report.new))
        result.end result.plan result.engine }
{
    let Job {
        plan,
        text,
        rendering,
        mut engine,
        mut room,
    } = job;
    match report.put(&text) {
        Ok(()) => {}
        Err(Failed) => {
            return Outcome {
                end: End::ReportFault,
                plan: Some(plan),
                engine: Some(engine),
            };
        }
    }
    let lengths = request.cutting.as_slice();
    let written = write_file(rt, folder, &rendering, lengths, &mut engine, &mut room);
    Outcome {
        end: end_of(written),
        plan: Some(plan),
        engine: Some(engine),
    }
}

/// Reports the plan, and writes what the graph makes of the input. All memory is taken before the report.
pub(crate) fn render<T: Threads + Sync, F: Folder, R: Sink>(
    rt: &T,
    alloc: Global,
    request: &RenderRequest,
    folder: &mut F,
    report: &mut R,
) -> Outcome
    requires size { IfSome request.now.bits IsSize }
    requires cutting { IsCutting request.now.cutting }
    ensures { IsRun (Asks (render (render_said request.now)))
        (outside (F.held folder.old) (F.read_faults folder.old) (F.write_faults folder.old) (R.bytes report.old) (R.faults report.old))
        (outside (F.held folder.new) (F.read_faults folder.new) (F.write_faults folder.new) (R.bytes report.new) (R.faults report.new))
        result.end result.plan result.engine }
{
    if request.input == request.output {
        return Outcome {
            end: End::SameName,
            plan: None,
            engine: None,
        };
    }
    match prepare(alloc, folder, request) {
        Ok(job) => perform(rt, job, request, folder, report),
        Err(end) => Outcome {
            end,
            plan: None,
            engine: None,
        },
    }
}

//! `demo SEED NODES`: a graph that is made of a number is compiled, judged and rendered in memory, and what came of it
//! is reported.

ghost use Rattle.std.specs.Prelude.{◌≡◌, ◌+◌, ◌*◌, ◌≤◌, ◌<◌, ◌^◌, ◌++◌, [], IfOk, None, Some, Ok as Asks, length, pos, replicate, sum};
ghost use Rattle.command_words.specs.Demos.{demo_said};
ghost use Rattle.command_words.specs.Requests.{demo};
ghost use Rattle.graph_gen.specs.Draws.{samples_drawn};
ghost use Rattle.graph_model.specs.Sound.{IsSound};
ghost use Rattle.plan_model.specs.Certified.{IsCertified};
ghost use Rattle.wav_pcm.specs.Samples.{bytes_of};
ghost use Rattle.engine_model.specs.Engines.{IsSame, Stands};
ghost use Rattle.graph_model.specs.Paths.{latency_of_graph};
ghost use Rattle.host_modes.specs.Demos.{demo_bytes, demo_frames, demo_graph, demo_input, demo_lines};
ghost use Rattle.host_modes.specs.Engines.{IsDemoEngine};
ghost use Rattle.plan_model.specs.declared.schedule.Mode.TheVariants.{OneByOne};
ghost use Rattle.host_modes.specs.Outside.{outside};
ghost use Rattle.host_modes.specs.Plans.{IsBestPlan};
ghost use Rattle.host_modes.specs.Runs.{IsRun};
ghost use Rattle.host_modes.specs.Works.{IsWork};

use crate::ends::{End, Outcome};
use crate::modes::reporting::{Work, reported};
use crate::modes::texts::{put_row, put_sum_row};
use command_words::DemoRequest;
use connections::{Checked, check};
use engine::Engine;
use gh_outside::{Folder, Sink};
use graph_gen::{graph_of, samples_of};
use graph_model::{Graph, Refused};
use plan_checker::{Yes, verdict};
use plan_compiler::compile;
use plan_model::{Mode, Plan};
use std::alloc::{AllocError, Global};
use std::thread::Threads;
use streaming::render_whole;
use wav_pcm::frame_bytes;

/// How many frames of samples come in; silence comes after them, as long as the graph's latency.
fn frames() -> u32
    ensures value { result ≡ demo_frames }
    ensures few { result ≤ 4800 }
{
    4800
}

/// A graph that is sound, checked.
fn checked(alloc: Global, graph: Graph) -> Result<Checked, AllocError>
    requires { IsSound graph }
    ensures { IfOk result (λ g. g ≡ graph) }
{
    match check(alloc, graph) {
        Ok(graph) => Ok(graph),
        Err(Refused::Fault(_)) => unreachable!(),
        Err(Refused::Memory) => Err(AllocError),
    }
}

/// Has a certified plan judged, which says yes.
fn judge(alloc: Global, graph: &Checked, plan: &Plan) -> Result<(), AllocError>
    requires { IsCertified graph.now plan.now }
{
    match verdict(alloc, graph, plan) {
        Ok(Yes) => Ok(()),
        Err(Refused::Fault(_)) => unreachable!(),
        Err(Refused::Memory) => Err(AllocError),
    }
}

/// A list of the same samples, which can grow.
fn copied(alloc: Global, samples: &[i64]) -> Result<Vec<i64>, AllocError>
    ensures { IfOk result (λ v. v.items ≡ samples.now) }
{
    samples.to_vec(alloc)
}

/// The samples of silence, of so many frames of two channels.
fn silence(alloc: Global, frames: u64) -> Result<Vec<i64>, AllocError>
    requires { frames ≤ 2 ^ 26 }
    ensures { IfOk result (λ v. v.items ≡ replicate (frames * 2) (pos 0)) }
{
    vec![in alloc; 0; frames as usize * 2]
}

/// Frames of the samples of a seed, and then of silence, of two channels, interleaved and scaled to 32 bits.
fn input(alloc: Global, seed: u64, frames: u32, silent: u64) -> Result<Vec<i64>, AllocError>
    requires { silent ≤ 2 ^ 26 }
    ensures { IfOk result (λ v. v.items ≡ samples_drawn seed (frames * 2) ++ replicate (silent * 2) (pos 0)) }
{
    let samples = samples_of(alloc, seed, frames)?;
    let silence = silence(alloc, silent)?;
    let mut input = copied(alloc, samples.as_slice())?;
    input.extend_from_slice(&silence)?;
    Ok(input)
}

/// The sum of bytes.
fn sum_of(bytes: &[u8]) -> u64
    requires { length bytes.now < 2 ^ 40 }
    ensures { result ≡ sum bytes.now }
{
    let mut sum = 0u64;
    for byte in bytes {
        sum += *byte as u64;
    }
    sum
}

/// The sum of the bytes that samples have in 16 bits.
fn byte_sum(alloc: Global, samples: &[i64]) -> Result<u64, AllocError>
    requires { length samples.now < 2 ^ 32 }
    ensures { IfOk result (λ n. n ≡ sum (bytes_of 16 samples.now)) }
{
    let mut bytes = vec![in alloc; 0u8; samples.len() * 2]?;
    frame_bytes(16, samples, &mut bytes);
    Ok(sum_of(&bytes))
}

/// The six lines of a demonstration.
fn lines(alloc: Global, graph: &Graph, plan: &Plan, sum: u64) -> Result<Vec<u8>, AllocError>
    requires { plan.now.latency ≤ 2 ^ 26 }
    ensures { IfOk result (λ text. text.items ≡ demo_lines graph.now plan.now sum) }
{
    let frames = frames() as u64 + plan.latency;
    let mut text = String::new(alloc);
    put_row(&mut text, "nodes", graph.nodes.len() as u64)?;
    put_row(&mut text, "connections", graph.connections.len() as u64)?;
    put_row(&mut text, "latency", plan.latency)?;
    put_row(&mut text, "total", plan.total)?;
    put_row(&mut text, "channels", plan.channels as u64)?;
    put_sum_row(&mut text, frames, sum)?;
    Ok(text.into_bytes())
}

/// What is reported of a demonstration.
fn text(alloc: Global, graph: &Checked, plan: &Plan, sum: u64) -> Result<Vec<u8>, AllocError>
    requires { plan.now.latency ≤ 2 ^ 26 }
    ensures { IfOk result (λ text. text.items ≡ demo_lines graph.now plan.now sum) }
{
    lines(alloc, graph.graph(), plan, sum)
}

/// The graph of a request.
fn graph_for(alloc: Global, request: &DemoRequest) -> Result<Checked, AllocError>
    requires { (3 ≤ request.now.nodes) × (request.now.nodes ≤ 512) }
    ensures is { IfOk result (λ g. g ≡ demo_graph (demo_said request.now)) }
    ensures sound { IfOk result IsSound }
{
    let graph = graph_of(alloc, request.seed, request.nodes)?;
    checked(alloc, graph)
}

/// Renders all frames by a new engine, and gives the sum of the bytes of what goes out.
fn answer_sum<T: Threads + Sync>(
    rt: &T,
    alloc: Global,
    engine: &mut Engine,
    request: &DemoRequest,
    latency: u64,
) -> Result<u64, AllocError>
    requires nodes { 3 ≤ request.now.nodes }
    requires is { engine.old.graph ≡ demo_graph (demo_said request.now) }
    requires sound { IsSound engine.old.graph }
    requires late { latency ≡ latency_of_graph engine.old.graph }
    requires block { engine.old.block ≡ 512 }
    requires new { Stands engine.old [] }
    ensures sum { IfOk result (λ n. n ≡ sum (demo_bytes (demo_said request.now))) }
    ensures same { IsSame engine.old engine.new }
    ensures stands { IfOk result (λ n. Stands engine.new (demo_input (demo_said request.now) latency)) }
{
    let input = input(alloc, request.seed, frames(), latency)?;
    let mut room = vec![in alloc; 0i64; input.len()]?;
    let count = frames() as usize + latency as usize;
    let output: &mut [i64] = &mut room;
    render_whole(rt, engine, 512, count, 2, 2, &input, output);
    byte_sum(alloc, output)
}

/// The plan of a graph one by one, which the checker judges yes.
fn judged_plan(alloc: Global, graph: &Checked) -> Result<Plan, AllocError>
    requires { IsSound graph.now }
    ensures { IfOk result (IsBestPlan graph.now OneByOne) }
{
    let plan = compile(alloc, graph, Mode::OneByOne)?;
    judge(alloc, graph, &plan)?;
    Ok(plan)
}

/// An engine of a graph and its plan, for the blocks of a demonstration.
fn engine_of(alloc: Global, graph: &Checked, plan: &Plan) -> Result<Engine, AllocError>
    requires { IsCertified graph.now plan.now }
    ensures keeps { IfOk result (λ e. (e.graph ≡ graph.now) × (e.plan ≡ plan.now) × (e.block ≡ 512)) }
    ensures new { IfOk result (λ e. Stands e []) }
{
    Engine::new(alloc, graph, plan, 512)
}

/// What is reported, and the engine that rendered.
#[derive(Drop)]
struct Shown {
    work: Work,
    engine: Engine,
}

/// Renders the samples by a plan, and makes the text.
fn demonstrated<T: Threads + Sync>(
    rt: &T,
    alloc: Global,
    graph: &Checked,
    plan: Plan,
    request: &DemoRequest,
) -> Result<Shown, AllocError>
    requires nodes { 3 ≤ request.now.nodes }
    requires is { graph.now ≡ demo_graph (demo_said request.now) }
    requires sound { IsSound graph.now }
    requires best { IsBestPlan graph.now OneByOne plan }
    ensures work { IfOk result (λ s. IsWork (Asks (demo (demo_said request.now))) None s.work.plan s.work.text.items s.work.end) }
    ensures engine { IfOk result (λ s. IsDemoEngine (demo_said request.now) (Some s.work.plan) s.engine) }
{
    let mut engine = engine_of(alloc, graph, &plan)?;
    let sum = answer_sum(rt, alloc, &mut engine, request, plan.latency)?;
    let text = text(alloc, graph, &plan, sum)?;
    let end = End::Done;
    let work = Work { plan, text, end };
    Ok(Shown { work, engine })
}

/// Makes the graph, compiles it one by one, has the plan judged, and renders the samples.
fn prepare<T: Threads + Sync>(
    rt: &T,
    alloc: Global,
    request: &DemoRequest,
) -> Result<Shown, AllocError>
    requires { (3 ≤ request.now.nodes) × (request.now.nodes ≤ 512) }
    ensures work { IfOk result (λ s. IsWork (Asks (demo (demo_said request.now))) None s.work.plan s.work.text.items s.work.end) }
    ensures engine { IfOk result (λ s. IsDemoEngine (demo_said request.now) (Some s.work.plan) s.engine) }
{
    let graph = graph_for(alloc, request)?;
    let plan = judged_plan(alloc, &graph)?;
    demonstrated(rt, alloc, &graph, plan, request)
}

/// Reports what came of a graph that is made of a number.
pub(crate) fn demo<T: Threads + Sync, F: Folder, R: Sink>(
    rt: &T,
    alloc: Global,
    request: &DemoRequest,
    folder: &mut F,
    report: &mut R,
) -> Outcome
    requires { (3 ≤ request.now.nodes) × (request.now.nodes ≤ 512) }
    ensures { IsRun (Asks (demo (demo_said request.now)))
        (outside (F.held folder.old) (F.read_faults folder.old) (F.write_faults folder.old) (R.bytes report.old) (R.faults report.old))
        (outside (F.held folder.new) (F.read_faults folder.new) (F.write_faults folder.new) (R.bytes report.new) (R.faults report.new))
        result.end result.plan result.engine }
{
    let _ = folder;
    match prepare(rt, alloc, request) {
        Ok(shown) => reported(report, shown.work, Some(shown.engine)),
        Err(AllocError) => Outcome {
            end: End::Memory,
            plan: None,
            engine: None,
        },
    }
}

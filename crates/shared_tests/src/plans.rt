//! Plans of graphs, and what is read off them.

ghost use Rattle.graph_model.specs.Sound.{Fits};
ghost use Rattle.plan_model.specs.SharedCertified.{IsCertified2};

use buffer_plan::are_lives;
use connections::{Checked, check};
use graph_model::{Graph, List};
use lifetimes::{lives_shared, needs};
use plan_compiler::{compile, compile_shared};
use plan_model::{Life, Mode, Plan, Plan2};
use std::alloc::{AllocError, Global};
use std::test::Fail;

/// The plan of a graph that has to be sound, with a line for each connection.
pub fn plan(alloc: Global, graph: Graph, mode: Mode) -> Result<Plan, Fail>
    requires { Fits graph }
{
    let checked = check(alloc, graph)?;
    Ok(compile(alloc, &checked, mode)?)
}

/// The plan of a graph that has to be sound, with a line for each value.
pub fn shared_plan(alloc: Global, graph: Graph, mode: Mode) -> Result<Plan2, Fail>
    requires { Fits graph }
{
    let checked = check(alloc, graph)?;
    Ok(compile_shared(alloc, &checked, mode)?)
}

/// Its latency, total, channels and peak.
fn figures_in(plan: &Plan2) -> (u64, u64, u32, u64) {
    (plan.latency, plan.total, plan.channels, plan.peak)
}

/// The same of the plan of a graph.
pub fn figures(alloc: Global, graph: Graph, mode: Mode) -> Result<(u64, u64, u32, u64), Fail>
    requires { Fits graph }
{
    let plan = shared_plan(alloc, graph, mode)?;
    Ok(figures_in(&plan))
}

/// Where the nodes stand, and then the lines of the values, in frames.
fn frames_in(alloc: Global, plan: &Plan2) -> Result<List<u64>, AllocError> {
    let mut frames = List::new(alloc);
    for place in plan.at.as_slice() {
        frames.push(place.at)?;
    }
    for line in plan.lines.as_slice() {
        frames.push(line.delay)?;
    }
    Ok(frames)
}

/// The same of the plan of a graph, one node a wave.
pub fn frames(alloc: Global, graph: Graph) -> Result<List<u64>, Fail>
    requires { Fits graph }
{
    let plan = shared_plan(alloc, graph, Mode::OneByOne)?;
    Ok(frames_in(alloc, &plan)?)
}

/// The lives of the values in a plan of a graph.
fn lives_by(alloc: Global, checked: &Checked, plan: &Plan2) -> Result<List<Life>, AllocError>
    requires { IsCertified2 checked.now plan.now }
{
    lives_shared(alloc, checked, &plan.waves, &plan.lines)
}

/// The same of its plan, one node a wave.
fn lives_in(alloc: Global, checked: &Checked) -> Result<List<Life>, AllocError> {
    let plan = compile_shared(alloc, checked, Mode::OneByOne)?;
    lives_by(alloc, checked, &plan)
}

/// The same of a graph that has to be sound.
pub fn lives(alloc: Global, graph: Graph) -> Result<List<Life>, Fail>
    requires { Fits graph }
{
    let checked = check(alloc, graph)?;
    Ok(lives_in(alloc, &checked)?)
}

/// What each of these waves needs, where these are lives in them.
pub fn needs_in(alloc: Global, lives: &List<Life>, waves: u32) -> Result<List<u32>, AllocError> {
    if lives.len() > 16384 || !are_lives(lives, waves) {
        return Ok(List::new(alloc));
    }
    needs(alloc, lives, waves)
}

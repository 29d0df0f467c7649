//! The plan of a graph: everything that a host decides before it renders.
//!
//! [`compile`] puts the live nodes where the delays sum up to the least at the least latency, orders them in waves, and
//! gives each value a buffer, with no more buffers than the fullest wave needs. [`compile_shared`] does the same where
//! each value has one delay line, which its readers share. Each step is a crate of its own; here they are joined.
//!
//! It promises that the plan is certified: its printed path shows the latency, its flow the total, and its peak the
//! channels; and that each of the three is the least, and each position the least of those. All of a plan but the flow
//! and which buffer a value has is a function of the graph and the mode (`plan_is_one` and `plan2_is_one` in
//! `plan_model`).
//!
//! It stands on `connections` for sound graphs and their paths, on `alignment`, `schedule`, `lifetimes` and
//! `buffer_plan` for the parts, and on `plan_model` for what a plan is.
#![tactic(auto)]

ghost use Rattle.std.specs.Prelude.{◌≡◌, ◌≤◌, ℕ, IfOk, length};
ghost use Rattle.graph_model.specs.Graphs.{output_name};
ghost use Rattle.graph_model.specs.Paths.{latency_of_graph, IsPrintedPath};
ghost use Rattle.graph_model.specs.Sound.{IsSound};
ghost use Rattle.plan_model.specs.Alignments.{IsAlignment, IsLeastTotal, IsPointwiseLeast};
ghost use Rattle.plan_model.specs.Buffers.{IsAssignment, IsLeastChannels};
ghost use Rattle.plan_model.specs.Certified.{positions, IsCertified};
ghost use Rattle.plan_model.specs.Lives.{lives_of, values};
ghost use Rattle.plan_model.specs.Results.{HasSchedule, IsPlan};
ghost use Rattle.plan_model.specs.Rules.{IsPeak};
ghost use Rattle.plan_model.specs.Schedules.{IsSchedule};

mod shared;

pub use crate::shared::compile_shared;
use alignment::align;
use buffer_plan::{Homes, assign};
use connections::Checked;
use graph_model::List;
use lifetimes::lives;
use plan_model::{Mode, Plan, Wave};
use schedule::schedule;
use std::alloc::{AllocError, Global};

/// The least buffers for a schedule, and the first wave that needs them all.
fn pooled(alloc: Global, graph: &Checked, waves: &List<Wave>) -> Result<Homes, AllocError>
    requires sound { IsSound graph.now }
    requires schedule { IsSchedule graph.now waves.now }
    ensures assignment { IfOk result (λ h. IsAssignment (lives_of graph.now waves.now (values graph.now)) h.homes h.channels) }
    ensures least { IfOk result (λ h. IsLeastChannels (lives_of graph.now waves.now (values graph.now)) h.channels) }
    ensures peak { IfOk result (λ h. IsPeak (lives_of graph.now waves.now (values graph.now)) (length waves.now) h.channels h.peak) }
{
    let lives = lives(alloc, graph, waves)?;
    assign(alloc, &lives, waves.len() as u32)
}

/// The plan of a graph with the schedule of a mode.
///
/// Positions, delays and latency are in frames. Each list stands in the order that `Plan` tells. It fails only for want
/// of memory.
pub fn compile(alloc: Global, graph: &Checked, mode: Mode) -> Result<Plan, AllocError>
    ensures plan { IfOk result (IsPlan graph.now mode) }

    // What that is, part by part.
    ensures certified { IfOk result (IsCertified graph.now) }
    ensures schedule { IfOk result (λ plan. HasSchedule graph.now mode plan.waves) }
    ensures path { IfOk result (λ plan. IsPrintedPath graph.now plan.path) }
    ensures latency { IfOk result (λ plan. plan.latency ≡ latency_of_graph graph.now) }

    // No alignment has less latency; of those with that latency none has a smaller total, and of those none an earlier
    // position; and no assignment of buffers for the schedule has fewer channels.
    ensures least_latency { IfOk result (λ plan. (q : ℕ → ℕ) → IsAlignment graph.now q → plan.latency ≤ q (output_name graph.now)) }
    ensures least_total { IfOk result (λ plan. IsLeastTotal graph.now (positions plan)) }
    ensures pointwise_least { IfOk result (λ plan. IsPointwiseLeast graph.now (positions plan)) }
    ensures least_channels { IfOk result (λ plan. IsLeastChannels (lives_of graph.now plan.waves (values graph.now)) plan.channels) }
{
    // It is sound, which the laws of plans ask for.
    let _ = graph.graph();
    let aligned = align(alloc, graph)?;
    let waves = schedule(alloc, graph, mode)?;
    let pool = pooled(alloc, graph, &waves)?;
    Ok(Plan {
        latency: graph.latency(),
        path: graph.path().copy(alloc)?,
        at: aligned.at,
        lines: aligned.lines,
        total: aligned.total,
        arcs: aligned.arcs,
        bound: aligned.bound,
        waves,
        homes: pool.homes,
        channels: pool.channels,
        peak: pool.peak,
    })
}

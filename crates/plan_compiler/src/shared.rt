//! The plan with one delay line for each value.

ghost use Rattle.std.specs.Prelude.{◌≡◌, ◌≤◌, ℕ, IfOk, length};
ghost use Rattle.graph_model.specs.Graphs.{output_name};
ghost use Rattle.graph_model.specs.Paths.{latency_of_graph, IsPrintedPath};
ghost use Rattle.graph_model.specs.Sound.{IsSound};
ghost use Rattle.plan_model.specs.Alignments.{IsAlignment, IsLeastBy, IsPointwiseLeastBy, position_in};
ghost use Rattle.plan_model.specs.Buffers.{IsAssignment, IsLeastChannels};
ghost use Rattle.plan_model.specs.Lives.{values};
ghost use Rattle.plan_model.specs.Results.{HasSchedule};
ghost use Rattle.plan_model.specs.Rules.{IsPeak};
ghost use Rattle.plan_model.specs.Schedules.{IsSchedule};
ghost use Rattle.plan_model.specs.SharedCertified.{IsCertified2};
ghost use Rattle.plan_model.specs.SharedLines.{ports_of_lines, shared_total};
ghost use Rattle.plan_model.specs.SharedLives.{shared_lives_of};
ghost use Rattle.plan_model.specs.SharedResults.{IsPlan2, IsPlanFor};

use alignment::align_shared;
use buffer_plan::{Homes, assign};
use connections::Checked;
use graph_model::List;
use lifetimes::lives_shared;
use plan_model::{LineOf, Mode, Plan2, Wave};
use schedule::schedule;
use std::alloc::{AllocError, Global};

/// The least buffers for a schedule and delay lines, and the first wave that needs them all.
fn pooled(
    alloc: Global,
    graph: &Checked,
    waves: &List<Wave>,
    lines: &List<LineOf>,
) -> Result<Homes, AllocError>
    requires sound { IsSound graph.now }
    requires schedule { IsSchedule graph.now waves.now }
    requires lines { ports_of_lines lines.now ≡ values graph.now }
    ensures assignment { IfOk result (λ h. IsAssignment (shared_lives_of graph.now waves.now lines.now
        (values graph.now)) h.homes h.channels) }
    ensures least { IfOk result (λ h. IsLeastChannels (shared_lives_of graph.now waves.now lines.now (values graph.now)) h.channels) }
    ensures peak { IfOk result (λ h. IsPeak (shared_lives_of graph.now waves.now lines.now (values graph.now))
        (length waves.now) h.channels h.peak) }
{
    let lives = lives_shared(alloc, graph, waves, lines)?;
    assign(alloc, &lives, waves.len() as u32)
}

/// The plan of a graph for a schedule, whichever that is.
fn plan_for(alloc: Global, graph: &Checked, waves: List<Wave>) -> Result<Plan2, AllocError>
    requires schedule { IsSchedule graph.now waves }
    ensures plan { IfOk result (IsPlanFor graph.now waves) }
    ensures latency { IfOk result (λ plan. plan.latency ≡ latency_of_graph graph.now) }
    ensures least_latency { IfOk result (λ plan. (q : ℕ → ℕ) → IsAlignment graph.now q → plan.latency ≤ q (output_name graph.now)) }
    ensures least_channels { IfOk result (λ plan. IsLeastChannels
        (shared_lives_of graph.now plan.waves plan.lines (values graph.now)) plan.channels) }
{
    // It is sound, which the laws of plans ask for.
    let _ = graph.graph();
    let aligned = align_shared(alloc, graph)?;
    let pool = pooled(alloc, graph, &waves, &aligned.lines)?;
    Ok(Plan2 {
        latency: graph.latency(),
        path: graph.path().copy(alloc)?,
        at: aligned.at,
        lines: aligned.lines,
        total: aligned.total,
        arcs: aligned.arcs,
        bound: aligned.bound,
        waves,
        homes: pool.homes,
        channels: pool.channels,
        peak: pool.peak,
    })
}

/// The plan of a graph with one delay line for each value, and with the schedule of a mode.
///
/// Positions, lines and latency are in frames. Each list stands in the order that `Plan2` tells. It fails only for want
/// of memory.
pub fn compile_shared(alloc: Global, graph: &Checked, mode: Mode) -> Result<Plan2, AllocError>
    ensures plan { IfOk result (IsPlan2 graph.now mode) }

    // What that is, part by part.
    ensures certified { IfOk result (IsCertified2 graph.now) }
    ensures schedule { IfOk result (λ plan. HasSchedule graph.now mode plan.waves) }
    ensures path { IfOk result (λ plan. IsPrintedPath graph.now plan.path) }
    ensures latency { IfOk result (λ plan. plan.latency ≡ latency_of_graph graph.now) }

    // No alignment has less latency; of those with that latency none has a smaller sum of lines, and of those none an
    // earlier position; and no assignment of buffers for the schedule and the lines has fewer channels.
    ensures least_latency { IfOk result (λ plan. (q : ℕ → ℕ) → IsAlignment graph.now q → plan.latency ≤ q (output_name graph.now)) }
    ensures least_total { IfOk result (λ plan. IsLeastBy (shared_total graph.now) graph.now (position_in plan.at)) }
    ensures pointwise_least { IfOk result (λ plan. IsPointwiseLeastBy (shared_total graph.now) graph.now (position_in plan.at)) }
    ensures least_channels { IfOk result (λ plan. IsLeastChannels
        (shared_lives_of graph.now plan.waves plan.lines (values graph.now)) plan.channels) }
{
    let waves = schedule(alloc, graph, mode)?;
    plan_for(alloc, graph, waves)
}

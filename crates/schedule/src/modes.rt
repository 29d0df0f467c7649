//! The two schedules.

ghost use Rattle.std.specs.Prelude.{◌≡◌, map, IfOk};
ghost use Rattle.plan_model.specs.Schedules.{IsSchedule, IsOneByOne, IsByWaves};
ghost use Rattle.plan_model.specs.Results.{HasSchedule};

use crate::depths::depths;
use crate::groups::grouped;
use crate::live::live_nodes;
use connections::Checked;
use graph_model::{List, Uid};
use plan_model::{Mode, Wave};
use std::alloc::{AllocError, Global};

/// One live node a wave, in the order of the nodes: again and again the node of least uid whose sources have all been
/// taken.
///
/// It fails only for want of memory.
pub fn one_by_one(alloc: Global, graph: &Checked) -> Result<List<Wave>, AllocError>
    ensures one_by_one { IfOk result (IsOneByOne graph.now) }
    ensures schedule { IfOk result (IsSchedule graph.now) }
{
    let nodes = graph.graph().nodes.as_slice();
    let mut waves = List::new(alloc);
    for index in graph.order().as_slice() {
        if graph.is_live(*index) {
            let nodes = List::from_slice(alloc, &[nodes[*index as usize].uid])?;
            waves.push(Wave { nodes })?;
        }
    }
    Ok(waves)
}

/// Each live node as early as its sources allow: in the wave whose index is the greatest number of connections on a
/// path into it. Each wave ascends by uid.
///
/// It fails only for want of memory.
pub fn by_waves(alloc: Global, graph: &Checked) -> Result<List<Wave>, AllocError>
    ensures by_waves { IfOk result (IsByWaves graph.now) }
    ensures schedule { IfOk result (IsSchedule graph.now) }
{
    let depths = depths(alloc, graph)?;
    let live = live_nodes(alloc, graph, &depths)?;
    let count = depths[graph.output() as usize] + 1;
    let waves = waves_of(alloc, grouped(alloc, count, &live)?)?;
    Ok(waves)
}

/// The schedule of a mode.
///
/// It fails only for want of memory.
pub fn schedule(alloc: Global, graph: &Checked, mode: Mode) -> Result<List<Wave>, AllocError>
    ensures of_mode { IfOk result (HasSchedule graph.now mode) }
    ensures schedule { IfOk result (IsSchedule graph.now) }
{
    match mode {
        Mode::OneByOne => one_by_one(alloc, graph),
        Mode::Waves => by_waves(alloc, graph),
    }
}

/// A wave for each of these lists.
fn waves_of(alloc: Global, levels: Vec<List<Uid>>) -> Result<List<Wave>, AllocError>
    ensures { IfOk result (λ waves. map (λ w. w.nodes) waves ≡ levels.items) }
{
    let mut waves = List::new(alloc);
    for nodes in levels {
        waves.push(Wave { nodes })?;
    }
    Ok(waves)
}

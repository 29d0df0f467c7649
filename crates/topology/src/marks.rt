//! Live nodes, found by marks that spread from the output.

ghost use Rattle.std.specs.Prelude.{◌≡◌, ◌<◌, length, IfOk, MatchBool, count_by, not};
ghost use Rattle.graph_model.specs.Graphs.{output_name};
ghost use Rattle.graph_model.specs.Named.{IsNamed, HasOneOutput, uid_at};
ghost use Rattle.graph_model.specs.declared.graph.Graph.{Graph};
ghost use Rattle.topology.specs.Links.{AreLinks, AreWithin};
ghost use Rattle.topology.specs.Marks.{AllLive, IsSpread, KeepsMarks, SpreadsAlong};
ghost use Rattle.topology.specs.Answers.{AreLive};

use crate::ends::{Link, links};
use graph_model::{Graph, List};
use std::alloc::{AllocError, Global};

/// The index of the output node.
pub(crate) fn output_index(graph: &Graph) -> usize
    requires { HasOneOutput graph.now }
    ensures within { result < length graph.now.nodes }
    ensures name { uid_at graph.now result ≡ output_name graph.now }
{
    graph.output_index().unwrap()
}

/// Marks the source of a link whose target is marked, and says whether that is a new mark.
fn spread_along(link: Link, marks: &mut [bool]) -> bool
    requires from { link.from < length marks.old }
    requires to { link.to < length marks.old }
    ensures { SpreadsAlong link marks.old marks.new result }
{
    if !marks[link.to] {
        return false;
    }
    if marks[link.from] {
        return false;
    }
    marks[link.from] = true;
    true
}

/// Marks the source of each link whose target is marked, once, and says whether there was a new mark.
fn spread(links: &[Link], marks: &mut [bool]) -> bool
    requires within { AreWithin (length marks.old) links.now }
    ensures kept { KeepsMarks marks.old marks.new }
    ensures live { (g : Graph) → IsNamed g → AreLinks g links.now → AllLive g marks.old → AllLive g marks.new }
    ensures more { MatchBool result (count_by not marks.new < count_by not marks.old) (IsSpread links.now marks.new) }
{
    let mut changed = false;
    for e in 0..links.len() {
        if spread_along(links[e], marks) {
            changed = true;
        }
    }
    changed
}

/// For each node, by index, whether it is live: whether it is the output node or connections lead from it to the
/// output node. The graph may have closed walks.
pub fn live(alloc: Global, graph: &Graph) -> Result<List<bool>, AllocError>
    requires named { IsNamed graph.now }
    requires output { HasOneOutput graph.now }
    ensures { IfOk result (AreLive graph.now) }
{
    let links = links(alloc, graph)?;
    let mut marks = vec![in alloc; false; graph.nodes.len()]?;
    marks[output_index(graph)] = true;
    while spread(&links, &mut marks) {}
    List::from_slice(alloc, &marks)
}

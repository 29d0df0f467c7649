//! The checks of the nodes.

ghost use Rattle.std.specs.Prelude.{◌≡◌, ◌≤◌, ◌==◌, length, position, count_by, MatchResult};
ghost use Rattle.graph_model.specs.Graphs.{is_input, is_output};
ghost use Rattle.graph_model.specs.Sound.{Fits};
ghost use Rattle.connections.specs.Faults.{UidsDiffer, AreInRange, HasGoodNodes, HasEnds, IsFirstFault};

use crate::fault::GraphFault;
use crate::members::bad_member;
use graph_model::{Graph, Node, Uid};

/// The first place of a uid among these nodes.
fn place_of(nodes: &[Node], uid: Uid) -> Option<usize>
    ensures { result ≡ position (λ n. n.uid.0 == uid.0) nodes.now }
{
    nodes.iter().position(|node| node.uid.0 == uid.0)
}

/// Finds a uid that stands twice.
fn check_uids(graph: &Graph) -> Result<(), GraphFault>
    requires { Fits graph.now }
    ensures { MatchResult result (λ _. UidsDiffer graph.now.nodes) (IsFirstFault graph.now) }
{
    let nodes = graph.nodes.as_slice();
    for second in 0..nodes.len() {
        let uid = nodes[second].uid;
        if let Some(first) = place_of(&nodes[..second], uid) {
            return Err(GraphFault::UidTwice {
                uid,
                first: first as u32,
                second: second as u32,
            });
        }
    }
    Ok(())
}

/// Finds a member out of range.
fn check_members(graph: &Graph) -> Result<(), GraphFault>
    requires { UidsDiffer graph.now.nodes }
    ensures { MatchResult result (λ _. AreInRange graph.now.nodes) (IsFirstFault graph.now) }
{
    for node in graph.nodes.as_slice() {
        if let Some(field) = bad_member(node) {
            return Err(GraphFault::KindField {
                uid: node.uid,
                field,
            });
        }
    }
    Ok(())
}

/// How many input nodes there are.
fn inputs(nodes: &[Node]) -> usize
    ensures { result ≡ count_by (λ n. is_input n.kind) nodes.now }
{
    nodes.iter().filter(|node| node.kind.is_input()).count()
}

/// How many output nodes there are.
fn outputs(nodes: &[Node]) -> usize
    ensures { result ≡ count_by (λ n. is_output n.kind) nodes.now }
{
    nodes.iter().filter(|node| node.kind.is_output()).count()
}

/// Finds another number of input or output nodes than one.
fn check_ends(graph: &Graph) -> Result<(), GraphFault>
    requires fits { Fits graph.now }
    requires uids { UidsDiffer graph.now.nodes }
    requires members { AreInRange graph.now.nodes }
    ensures { MatchResult result (λ _. HasEnds graph.now 1 1) (IsFirstFault graph.now) }
{
    let inputs = inputs(graph.nodes.as_slice());
    let outputs = outputs(graph.nodes.as_slice());
    if inputs == 1 && outputs == 1 {
        return Ok(());
    }
    Err(GraphFault::Ends {
        inputs: inputs as u32,
        outputs: outputs as u32,
    })
}

/// Checks the nodes.
pub(crate) fn check_nodes(graph: &Graph) -> Result<(), GraphFault>
    requires { Fits graph.now }
    ensures { MatchResult result (λ _. HasGoodNodes graph.now) (IsFirstFault graph.now) }
{
    check_uids(graph)?;
    check_members(graph)?;
    check_ends(graph)?;
    Ok(())
}

//! The live nodes.

ghost use Rattle.std.specs.Prelude.{◌≡◌, ◌==◌, ℕ, List, map, IfOk};
ghost use Rattle.std.specs.List.{common_prefix_len};
ghost use Rattle.graph_model.specs.Paths.{live_nodes};
ghost use Rattle.graph_model.specs.Sound.{IsSound};
ghost use Rattle.graph_model.specs.declared.graph.Graph.{Graph};
ghost use Rattle.plan_model.specs.Rules.{AreLiveNodes};
ghost use Rattle.plan_checker.specs.Answers.{Judges};

use connections::Checked;
use plan_model::At;
use std::alloc::{AllocError, Global};

/// The uids of the live nodes, in the graph's order.
pub(crate) fn live_uids(alloc: Global, g: &Checked) -> Result<Vec<u32>, AllocError>
    ensures live { IfOk result (λ v. v.items ≡ live_nodes g.now) }
    ensures sound { IfOk result (λ _. IsSound g.now) }
{
    let mut live = Vec::new(alloc);
    for (index, node) in g.graph().nodes.as_slice().iter().enumerate() {
        if g.is_live(index as u32) {
            live.push(node.uid.0)?;
        }
    }
    Ok(live)
}

/// The uids of the live nodes, ascending.
pub(crate) fn live_nodes(alloc: Global, g: &Checked) -> Result<Vec<u32>, AllocError>
    ensures live { IfOk result (λ v. AreLiveNodes g.now v.items) }
    ensures sound { IfOk result (λ _. IsSound g.now) }
{
    let mut live = live_uids(alloc, g)?;
    live.sort_unstable();
    Ok(live)
}

/// How many entries from the first on name the nodes of the list.
fn agreeing(at: &[At], live: &[u32]) -> usize
    ensures { result ≡ common_prefix_len (λ x y. x == y) (map (λ a. a.uid.0) at.now) live.now }
{
    let shorter = at.len().min(live.len());
    for place in 0..shorter {
        if at[place].uid.0 != live[place] {
            return place;
        }
    }
    shorter
}

/// The entries name exactly the live nodes, ascending.
pub(crate) fn at(live: &[u32], at: &[At]) -> Option<u64>
    ensures { (g : Graph) → AreLiveNodes g live.now → Judges result
        (AreLiveNodes g (map (λ a. a.uid.0) at.now))
        (λ place. (vs : List ℕ) × AreLiveNodes g vs × (place ≡ common_prefix_len (λ x y. x == y) (map (λ a. a.uid.0) at.now) vs)) }
{
    let agreeing = agreeing(at, live);
    if agreeing == at.len() && agreeing == live.len() {
        return None;
    }
    Some(agreeing as u64)
}

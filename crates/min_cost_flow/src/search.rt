//! Cheapest walks in the residual network of a flow.

ghost use Rattle.std.specs.Prelude.{◌≡◌, ◌≢◌, ℕ, ◌<◌, ℤ, pos, ◌<ℤ◌, length, replicate, IfOk, OnOk, MatchOption};
ghost use Rattle.shortest_paths.specs.Walks.{number_of};
ghost use Rattle.shortest_paths.specs.Nearest.{IsLinked};
ghost use Rattle.min_cost_flow.specs.Flow.{IsNetwork};
ghost use Rattle.min_cost_flow.specs.Search.{IsReady, IsSearchOf};

use crate::network::Network;
use crate::residual::{Residual, forward_edges, residual_of};
use shortest_paths::{Leaving, Searcher, distances};
use std::alloc::{AllocError, Global};

// The residual network, the cheapest walks in it from a point, and the potentials by which they are sought.
#[derive(Drop)]
pub(crate) struct Walks {
    pub(crate) from: u32,
    pub(crate) residual: Residual,
    pub(crate) leaving: Leaving,
    pub(crate) search: Searcher,
}

// The first potentials, which are tight for the flow of no units: the costs of the cheapest walks from the root.
pub(crate) fn first_walks(alloc: Global, net: &Network) -> Result<Walks, AllocError>
    requires { IsNetwork net.now }

    ensures { IfOk result (λ w. IsReady net.now (replicate (length net.now.arcs) 0) w) }
{
    let residual = residual_of(alloc, net.arcs.as_slice())?;
    let leaving = Leaving::new(alloc, net.points, &residual.edges)?;
    let mut search = Searcher::new(alloc, net.points)?;
    let forward = forward_edges(alloc, net.arcs.as_slice())?;
    let first = distances(alloc, net.points, &forward, 0)?;
    search.numbers = Vec::from_slice(alloc, first.least.as_slice())?;
    Ok(Walks {
        from: 0,
        residual,
        leaving,
        search,
    })
}

// Searches from a point in the residual network of the flow, until enough units are wanted at the points that were
// reached. It answers the point at which it stopped, or none where each point is reached.
pub(crate) fn search_from(
    net: &Network,
    flow: &[u64],
    walks: &mut Walks,
    from: u32,
    wanted: &[i64],
    enough: i64,
) -> Result<Option<u32>, AllocError>
    requires network { IsNetwork net.now }
    requires units { length flow.now ≡ length net.now.arcs }
    requires ready { IsReady net.now flow.now walks.old }
    requires from { from < net.now.points }

    ensures from { OnOk result (walks.new.from ≡ from) }
    ensures ready { OnOk result (IsReady net.now flow.now walks.new) }
    ensures start { OnOk result (number_of walks.new.search.numbers.items from ≡ pos 0) }
    ensures search { OnOk result (IsSearchOf net.now flow.now from walks.new.residual walks.new.search) }
    ensures stop { IfOk result (λ stop. MatchOption stop
        ((v : ℕ) → v < net.now.points → v ≢ from → IsLinked walks.new.search.last.items v)
        (λ v. (v < net.now.points) × (pos 0 <ℤ number_of wanted.now v)
        × (v ≢ from → IsLinked walks.new.search.last.items v))) }
{
    walks.from = from;
    let stop = walks.search.run(
        &walks.residual.edges,
        flow,
        &walks.leaving,
        from,
        wanted,
        enough,
    )?;
    Ok(stop)
}

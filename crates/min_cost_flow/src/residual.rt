//! The residual network of a flow.

ghost use Rattle.std.specs.Prelude.{◌≡◌, ◌≤◌, ◌*◌, ◌^◌, [], ◌∷◌, ◌++◌, length, map, IfOk, OnOk};
ghost use Rattle.std.specs.List.{All};
ghost use Rattle.shortest_paths.specs.Walks.{IsWithin};
ghost use Rattle.min_cost_flow.specs.Residual.{IsResidual, forward, backward};

use crate::network::{Arc, Step};
use shortest_paths::Edge;
use std::alloc::{AllocError, Global};

// The edges of the residual network, each with what it stands for.
#[derive(Debug, Drop)]
pub(crate) struct Residual {
    pub(crate) edges: Vec<Edge>,
    pub(crate) steps: Vec<Step>,
}

impl Residual {
    // Adds an edge, and what it stands for.
    fn add(&mut self, edge: Edge, step: Step) -> Result<(), AllocError>
        ensures edges { OnOk result (self.new.edges.items ≡ self.old.edges.items ++ edge ∷ []) }
        ensures steps { OnOk result (self.new.steps.items ≡ self.old.steps.items ++ step ∷ []) }
    {
        self.edges.push(edge)?;
        self.steps.push(step)?;
        Ok(())
    }
}

// The edge that stands for one unit more on an arc.
fn one_more(arc: Arc) -> Edge
    requires { IsWithin (2 ^ 30) arc.least }

    ensures { result ≡ forward arc }
{
    Edge {
        tail: arc.tail,
        head: arc.head,
        cost: -arc.least,
    }
}

// The edge that stands for one unit fewer on an arc: the reverse arc.
fn one_fewer(arc: Arc) -> Edge
    ensures { result ≡ backward arc }
{
    Edge {
        tail: arc.head,
        head: arc.tail,
        cost: arc.least,
    }
}

// The edges that stand for one unit more, in the order of the arcs.
pub(crate) fn forward_edges(alloc: Global, arcs: &[Arc]) -> Result<Vec<Edge>, AllocError>
    requires leasts { All (λ a. IsWithin (2 ^ 30) a.least) arcs.now }

    ensures { IfOk result (λ edges. edges.items ≡ map forward arcs.now) }
{
    let mut edges = Vec::with_capacity(alloc, arcs.len())?;
    for arc in arcs {
        edges.push(one_more(*arc))?;
    }
    Ok(edges)
}

// The residual network: an edge for one unit more on each arc, and then one for a unit fewer on each, whose limit is
// the units that are on the arc.
pub(crate) fn residual_of(alloc: Global, arcs: &[Arc]) -> Result<Residual, AllocError>
    requires few { length arcs.now ≤ 2 ^ 16 }
    requires leasts { All (λ a. IsWithin (2 ^ 30) a.least) arcs.now }

    ensures { IfOk result (λ r. IsResidual arcs.now r.edges.items r.steps.items) }
{
    let most = 2 * arcs.len();
    let mut residual = Residual {
        edges: Vec::with_capacity(alloc, most)?,
        steps: Vec::with_capacity(alloc, most)?,
    };
    for (k, arc) in arcs.iter().enumerate() {
        let step = Step {
            arc: k as u32,
            back: false,
        };
        residual.add(one_more(*arc), step)?;
    }
    for (j, arc) in arcs.iter().enumerate() {
        let step = Step {
            arc: j as u32,
            back: true,
        };
        residual.add(one_fewer(*arc), step)?;
    }
    Ok(residual)
}

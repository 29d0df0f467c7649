//! The verdict on a plan.

ghost use Rattle.std.specs.Prelude.{OnOk, IfErr};
ghost use Rattle.plan_model.specs.Certified.{IsCertified};
ghost use Rattle.plan_model.specs.Optimal.{IsOptimal};
ghost use Rattle.plan_checker.specs.Verdicts.{IsRefusal};

use crate::judged::place_of;
use connections::Checked;
use graph_model::Refused;
use plan_model::{Plan, Rule};
use std::alloc::Global;

/// A plan is certified for its graph: each rule holds.
#[derive(Clone, Copy, Debug, PartialEq, Eq)]
pub struct Yes;

/// A plan is not certified for its graph.
#[derive(Clone, Copy, Debug, PartialEq, Eq)]
pub struct No {
    /// The first rule that fails.
    pub rule: Rule,
    /// The place where it fails, as [`Rule`] says it of each.
    pub place: u64,
}

/// The rules in their order.
const RULES: [Rule; 16] = [
    Rule::At,
    Rule::Input,
    Rule::Alignment,
    Rule::Latency,
    Rule::Lines,
    Rule::Total,
    Rule::Path,
    Rule::Longest,
    Rule::Arcs,
    Rule::Need,
    Rule::Bound,
    Rule::Least,
    Rule::Waves,
    Rule::Homes,
    Rule::Channels,
    Rule::Peak,
];

/// Judges a plan, whoever made it. Ok exactly where it is certified for the graph, and then no alignment has less
/// latency, none of that latency a smaller total, and no assignment for its waves fewer channels.
///
/// A fault is the first rule that fails, with its place. Want of memory may come at any point.
pub fn verdict(alloc: Global, g: &Checked, plan: &Plan) -> Result<Yes, Refused<No>>
    ensures yes { OnOk result (IsCertified g.now plan.now) }
    ensures no { IfErr result (IsRefusal g.now plan.now) }
    ensures optimal { OnOk result (IsOptimal g.now plan.now) }
{
    let graph = g.graph();
    prove!(graph.nodes.len() <= 512);
    for rule in RULES {
        if let Some(place) = place_of(alloc, g, plan, rule)? {
            return Err(Refused::Fault(No { rule, place }));
        }
    }
    Ok(Yes)
}

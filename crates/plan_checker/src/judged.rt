//! The rules of a plan, each over the parts of the plan that it reads.

ghost use Rattle.std.specs.Prelude.{◌≡◌, ◌≤◌, length, IfOk};
ghost use Rattle.std.specs.List.{AllZip};
ghost use Rattle.graph_model.specs.Sound.{IsSound};
ghost use Rattle.plan_model.specs.Buffers.{AreLives};
ghost use Rattle.plan_model.specs.Certified.{Holds};
ghost use Rattle.plan_model.specs.Lives.{lives_of, ports_of};
ghost use Rattle.plan_model.specs.Places.{IsPlace};
ghost use Rattle.plan_model.specs.declared.rule.Rule.TheVariants.{At, Lines, Path, Longest, Arcs, Need, Bound, Waves, Homes, Channels, Peak};
ghost use Rattle.plan_checker.specs.Answers.{Judges, HoldBefore};

use crate::channels::channels;
use crate::flow::{arcs, bound, least_total, need};
use crate::graphs::live_connections;
use crate::homes::homes;
use crate::lines::{expected, lines, sum, total};
use crate::live::{at, live_nodes};
use crate::network::network;
use crate::path::{longest, path};
use crate::peak::peak;
use crate::positions::{alignment, input, latency};
use crate::waves::waves;
use connections::Checked;
use graph_model::List;
use lifetimes::{lives, needs};
use plan_model::{Life, Plan, Rule};
use std::alloc::{AllocError, Global};

/// The live nodes, and the positions of exactly them.
fn judge_at(alloc: Global, g: &Checked, plan: &Plan) -> Result<Option<u64>, AllocError>
    ensures { IfOk result (λ answer. Judges answer (Holds g.now plan.now At) (IsPlace g.now plan.now At)) }
{
    let live = live_nodes(alloc, g)?;
    Ok(at(&live, plan.at.as_slice()))
}

/// The lines that the positions ask for.
fn judge_lines(alloc: Global, g: &Checked, plan: &Plan) -> Result<Option<u64>, AllocError>
    ensures { IfOk result (λ answer. Judges answer (Holds g.now plan.now Lines) (IsPlace g.now plan.now Lines)) }
{
    let expected = expected(alloc, g, plan.at.as_slice())?;
    Ok(lines(plan.lines.as_slice(), expected.as_slice()))
}

/// The flow's arcs in the network.
fn judge_arcs(alloc: Global, g: &Checked, plan: &Plan) -> Result<Option<u64>, AllocError>
    requires sound { IsSound g.now }
    requires path { Holds g.now plan.now Path }
    requires longest { Holds g.now plan.now Longest }
    ensures { IfOk result (λ answer. Judges answer (Holds g.now plan.now Arcs) (IsPlace g.now plan.now Arcs)) }
{
    let connections = live_connections(alloc, g)?;
    let network = network(alloc, g, &connections, plan.latency)?;
    Ok(arcs(&network, plan.arcs.as_slice()))
}

/// The flow at each point.
fn judge_need(alloc: Global, g: &Checked, plan: &Plan) -> Result<Option<u64>, AllocError>
    ensures { IfOk result (λ answer. Judges answer (Holds g.now plan.now Need) (IsPlace g.now plan.now Need)) }
{
    let live = live_nodes(alloc, g)?;
    let connections = live_connections(alloc, g)?;
    Ok(need(&live, &connections, plan.arcs.as_slice()))
}

/// The flow's bound.
fn judge_bound(alloc: Global, g: &Checked, plan: &Plan) -> Result<Option<u64>, AllocError>
    requires sound { IsSound g.now }
    requires path { Holds g.now plan.now Path }
    requires longest { Holds g.now plan.now Longest }
    requires arcs { Holds g.now plan.now Arcs }
    ensures { IfOk result (λ answer. Judges answer (Holds g.now plan.now Bound) (IsPlace g.now plan.now Bound)) }
{
    let connections = live_connections(alloc, g)?;
    let network = network(alloc, g, &connections, plan.latency)?;
    let arcs = plan.arcs.as_slice();
    Ok(bound(g.graph(), &network, &connections, arcs, plan.bound))
}

/// The schedule.
fn judge_waves(alloc: Global, g: &Checked, plan: &Plan) -> Result<Option<u64>, AllocError>
    ensures { IfOk result (λ answer. Judges answer (Holds g.now plan.now Waves) (IsPlace g.now plan.now Waves)) }
{
    let live = live_nodes(alloc, g)?;
    Ok(waves(g, &live, plan.waves.as_slice()))
}

/// The lives of the values, which are those that the homes are for.
fn lives_at_home(alloc: Global, g: &Checked, plan: &Plan) -> Result<List<Life>, AllocError>
    requires waves { Holds g.now plan.now Waves }
    requires homes { Holds g.now plan.now Homes }
    ensures lives { IfOk result (λ lives. lives ≡ lives_of g.now plan.now.waves (ports_of plan.now.homes)) }
    ensures beside { IfOk result (λ lives. AllZip (λ x h. (h.uid ≡ x.uid) × (h.channel ≡ x.channel)) lives plan.now.homes) }
    ensures usable { IfOk result (λ lives. AreLives lives (length plan.now.waves)) }
    ensures few { IfOk result (λ lives. length lives ≤ 8192) }
{
    lives(alloc, g, &plan.waves)
}

/// The homes of the values.
fn judge_homes(alloc: Global, g: &Checked, plan: &Plan) -> Result<Option<u64>, AllocError>
    requires { Holds g.now plan.now Waves }
    ensures { IfOk result (λ answer. Judges answer (Holds g.now plan.now Homes) (IsPlace g.now plan.now Homes)) }
{
    let lives = lives(alloc, g, &plan.waves)?;
    Ok(homes(lives.as_slice(), plan.homes.as_slice()))
}

/// The buffers of the values.
fn judge_channels(alloc: Global, g: &Checked, plan: &Plan) -> Result<Option<u64>, AllocError>
    requires waves { Holds g.now plan.now Waves }
    requires homes { Holds g.now plan.now Homes }
    ensures { IfOk result (λ answer. Judges answer (Holds g.now plan.now Channels) (IsPlace g.now plan.now Channels)) }
{
    let lives = lives_at_home(alloc, g, plan)?;
    let homes = plan.homes.as_slice();
    channels(alloc, lives.as_slice(), homes, plan.channels)
}

/// The wave that needs all channels.
fn judge_peak(alloc: Global, g: &Checked, plan: &Plan) -> Result<Option<u64>, AllocError>
    requires sound { IsSound g.now }
    requires waves { Holds g.now plan.now Waves }
    requires homes { Holds g.now plan.now Homes }
    ensures { IfOk result (λ answer. Judges answer (Holds g.now plan.now Peak) (IsPlace g.now plan.now Peak)) }
{
    let lives = lives_at_home(alloc, g, plan)?;
    let needs = needs(alloc, &lives, plan.waves.len() as u32)?;
    Ok(peak(needs.as_slice(), plan.channels, plan.peak))
}

/// Where a rule fails, and None where it holds.
pub(crate) fn place_of(
    alloc: Global,
    g: &Checked,
    plan: &Plan,
    rule: Rule,
) -> Result<Option<u64>, AllocError>
    requires sound { IsSound g.now }
    requires before { HoldBefore g.now plan.now rule }
    ensures { IfOk result (λ answer. Judges answer (Holds g.now plan.now rule) (IsPlace g.now plan.now rule)) }
{
    match rule {
        Rule::At => judge_at(alloc, g, plan),
        Rule::Input => Ok(input(g, plan.at.as_slice())),
        Rule::Alignment => Ok(alignment(g, plan.at.as_slice())),
        Rule::Latency => Ok(latency(g, plan.at.as_slice(), plan.latency)),
        Rule::Lines => judge_lines(alloc, g, plan),
        Rule::Total => Ok(total(sum(plan.lines.as_slice()), plan.total)),
        Rule::Path => Ok(path(g, plan.path.as_slice())),
        Rule::Longest => Ok(longest(g, plan.path.as_slice(), plan.latency)),
        Rule::Arcs => judge_arcs(alloc, g, plan),
        Rule::Need => judge_need(alloc, g, plan),
        Rule::Bound => judge_bound(alloc, g, plan),
        Rule::Least => Ok(least_total(plan.total, plan.bound)),
        Rule::Waves => judge_waves(alloc, g, plan),
        Rule::Homes => judge_homes(alloc, g, plan),
        Rule::Channels => judge_channels(alloc, g, plan),
        Rule::Peak => judge_peak(alloc, g, plan),
    }
}

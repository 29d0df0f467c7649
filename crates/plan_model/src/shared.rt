//! The plan with one delay line for each value.

ghost use Rattle.std.specs.Prelude.{◌≡◌, IfOk};

use crate::alignment::At;
use crate::buffers::Home;
use crate::plan::Plan;
use crate::schedule::{Wave, copy_waves};
use graph_model::{List, Uid};
use std::alloc::{AllocError, Global};

/// The delay line of a value, which its readers share: as long as the one needs that waits the longest.
#[derive(Clone, Copy, Debug, PartialEq, Eq)]
pub struct LineOf {
    /// The node that bears the value.
    pub uid: Uid,
    /// The output channel of the node, from 0.
    pub channel: u32,
    /// How many frames the line holds.
    pub delay: u64,
}

/// A point of the network of shared lines: the root (0, no channel), a live node (no channel) or the mirror of a value.
#[derive(Clone, Copy, Debug, PartialEq, Eq)]
pub struct Point {
    /// The node's uid, or 0 for the root.
    pub uid: u32,
    /// The output channel of a mirror, from 0.
    pub channel: Option<u32>,
}

/// The units of a flow on one arc of the network of shared lines.
#[derive(Clone, Copy, Debug, PartialEq, Eq)]
pub struct PointUnits {
    /// The point that the arc leaves.
    pub tail: Point,
    /// The point that it enters.
    pub head: Point,
    /// How many units it carries.
    pub units: u64,
}

/// Where the live nodes stand with the shortest lines in sum, and a flow that shows that no lines are shorter.
#[derive(Debug, PartialEq, Eq, Drop)]
pub struct AlignedShared {
    /// The positions of the live nodes, in frames, ascending by uid.
    pub at: List<At>,
    /// The delay lines of the values, ascending by uid and then by channel.
    pub lines: List<LineOf>,
    /// The sum of the lines, in frames.
    pub total: u64,
    /// The arcs of the flow that carry units, ascending by tail and then by head: the root, the nodes, the mirrors.
    pub arcs: List<PointUnits>,
    /// The bound that the flow sets to every total of this latency; it is `total`.
    pub bound: u64,
}

/// What an engine with one delay line for each value runs by, and what shows that no plan does with less.
///
/// Any lists and numbers make a `Plan2`. What is said here of their order holds of a plan that is certified for its
/// graph.
#[derive(Debug, PartialEq, Eq, Drop)]
pub struct Plan2 {
    /// The position of the output node, in frames.
    pub latency: u64,
    /// A path into the output node whose latencies sum up to `latency`, from its first node on.
    pub path: List<Uid>,
    /// The positions of the live nodes, ascending by uid.
    pub at: List<At>,
    /// The delay lines of the values, ascending by uid and then by channel.
    pub lines: List<LineOf>,
    /// The sum of the lines, in frames.
    pub total: u64,
    /// A flow, as the arcs that carry units, ascending by tail and then by head: the root, the nodes, the mirrors.
    pub arcs: List<PointUnits>,
    /// The bound that the flow sets to every total; it is `total`.
    pub bound: u64,
    /// The schedule: each live node stands in one wave, after the waves of its sources.
    pub waves: List<Wave>,
    /// The buffers of the values, ascending by uid and then by channel.
    pub homes: List<Home>,
    /// How many buffers the pool has, each for one channel.
    pub channels: u32,
    /// The index of the first wave that needs `channels` buffers.
    pub peak: u64,
}

/// A plan of either version.
#[derive(Debug, PartialEq, Eq, Drop)]
pub enum SomePlan {
    /// With a delay line for each connection.
    One(Plan),
    /// With a delay line for each value.
    Two(Plan2),
}

impl Plan2 {
    /// An equal plan, in memory of its own. Fails only where memory is wanting.
    pub fn copy(&self, alloc: Global) -> Result<Plan2, AllocError>
        ensures { IfOk result (λ plan. plan ≡ self.now) }
    {
        Ok(Plan2 {
            latency: self.latency,
            path: self.path.copy(alloc)?,
            at: self.at.copy(alloc)?,
            lines: self.lines.copy(alloc)?,
            total: self.total,
            arcs: self.arcs.copy(alloc)?,
            bound: self.bound,
            waves: copy_waves(alloc, &self.waves)?,
            homes: self.homes.copy(alloc)?,
            channels: self.channels,
            peak: self.peak,
        })
    }
}

impl SomePlan {
    /// An equal plan, in memory of its own. Fails only where memory is wanting.
    pub fn copy(&self, alloc: Global) -> Result<SomePlan, AllocError>
        ensures { IfOk result (λ plan. plan ≡ self.now) }
    {
        match self {
            SomePlan::One(plan) => Ok(SomePlan::One(plan.copy(alloc)?)),
            SomePlan::Two(plan) => Ok(SomePlan::Two(plan.copy(alloc)?)),
        }
    }
}

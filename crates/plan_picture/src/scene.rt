//! A graph, and its plan where there is one, put into boxes and wires.

use connections::Checked;
use graph_model::{Connection, Kind, Node, Uid, latency};
use plan_model::{LineAt, Plan};
use std::alloc::{AllocError, Global};

/// The box of a node.
#[derive(Clone, Copy, Debug, PartialEq, Eq)]
pub(crate) struct Shape {
    pub(crate) uid: Uid,
    pub(crate) kind: &'static str,
    pub(crate) latency: u32,
    /// How many channels its larger side has.
    pub(crate) channels: u32,
    /// The time at which it begins.
    pub(crate) start: u64,
    /// The time at which its output begins.
    pub(crate) end: u64,
    pub(crate) wave: Option<usize>,
    pub(crate) is_live: bool,
    pub(crate) is_on_path: bool,
}

/// The line of a connection between two boxes, named by their places.
#[derive(Clone, Copy, Debug, PartialEq, Eq)]
pub(crate) struct Wire {
    pub(crate) from: usize,
    pub(crate) from_channel: u32,
    pub(crate) to: usize,
    pub(crate) to_channel: u32,
    pub(crate) delay: u64,
    pub(crate) buffer: Option<u32>,
    pub(crate) is_live: bool,
    pub(crate) is_on_path: bool,
}

/// What is said in words.
#[derive(Clone, Copy, Debug, PartialEq, Eq)]
pub(crate) struct Totals {
    pub(crate) latency: u64,
    pub(crate) nodes: usize,
    pub(crate) connections: usize,
    /// Of a plan: its delay samples, its buffers and the first wave that needs them.
    pub(crate) plan: Option<PlanTotals>,
}

#[derive(Clone, Copy, Debug, PartialEq, Eq)]
pub(crate) struct PlanTotals {
    pub(crate) delays: u64,
    pub(crate) channels: u32,
    pub(crate) peak: u64,
}

/// What is drawn: boxes so ordered that each wire of the graph leads to a later one, and wires.
#[derive(Drop)]
pub(crate) struct Scene {
    pub(crate) boxes: Vec<Shape>,
    pub(crate) wires: Vec<Wire>,
    pub(crate) totals: Totals,
}

/// The word of a kind.
fn word(kind: &Kind) -> &'static str {
    match kind {
        Kind::Input { .. } => "input",
        Kind::Output { .. } => "output",
        Kind::Gain { .. } => "gain",
        Kind::Mixer { .. } => "mixer",
        Kind::Fir { .. } => "fir",
        Kind::Biquad { .. } => "biquad",
        Kind::Limiter { .. } => "limiter",
        Kind::Delay { .. } => "delay",
        Kind::Insert { .. } => "insert",
    }
}

/// The box of a live node at a time.
fn live_box(node: &Node, path: &[Uid]) -> Shape {
    Shape {
        uid: node.uid,
        kind: word(&node.kind),
        latency: latency(&node.kind),
        channels: node.ins().max(node.outs()),
        start: 0,
        end: 0,
        wave: None,
        is_live: true,
        is_on_path: path.iter().any(|uid| uid.0 == node.uid.0),
    }
}

/// Where a plan has a node.
fn position(plan: &Plan, uid: Uid) -> Option<u64> {
    let row = plan.at.as_slice().iter().find(|row| row.uid.0 == uid.0)?;
    Some(row.at)
}

/// The wave of a plan in which a node runs.
fn wave(plan: &Plan, uid: Uid) -> Option<usize> {
    for (index, wave) in plan.waves.as_slice().iter().enumerate() {
        if wave.nodes.as_slice().iter().any(|node| node.0 == uid.0) {
            return Some(index);
        }
    }
    None
}

/// The buffer of the value that a connection reads.
fn buffer(plan: &Plan, connection: &Connection) -> Option<u32> {
    let (uid, channel) = (connection.src.0, connection.src_channel);
    let homes = plan.homes.as_slice();
    let home = homes
        .iter()
        .find(|home| home.uid.0 == uid && home.channel == channel)?;
    Some(home.buffer)
}

/// The place of the box of a node.
fn place(boxes: &[Shape], uid: Uid) -> Option<usize> {
    boxes.iter().position(|shape| shape.uid.0 == uid.0)
}

/// Whether a path steps from one node to the other.
fn steps(path: &[Uid], from: Uid, to: Uid) -> bool {
    let later = path.iter().skip(1);
    path.iter()
        .zip(later)
        .any(|(one, next)| one.0 == from.0 && next.0 == to.0)
}

/// The wire of a connection whose two nodes have boxes.
fn joined(boxes: &[Shape], connection: &Connection, path: &[Uid]) -> Option<Wire> {
    let from = place(boxes, connection.src)?;
    let to = place(boxes, connection.dst)?;
    Some(Wire {
        from,
        from_channel: connection.src_channel,
        to,
        to_channel: connection.dst_channel,
        delay: 0,
        buffer: None,
        is_live: true,
        is_on_path: steps(path, connection.src, connection.dst),
    })
}

/// The wire of a line of a plan.
fn planned_wire(graph: &Checked, plan: &Plan, boxes: &[Shape], line: &LineAt) -> Option<Wire> {
    let connections = graph.graph().connections.as_slice();
    let connection = connections.get(line.connection as usize)?;
    let mut wire = joined(boxes, connection, plan.path.as_slice())?;
    wire.delay = line.delay;
    wire.buffer = buffer(plan, connection);
    Some(wire)
}

/// The box of a node where its plan has it.
fn planned_box(plan: &Plan, node: &Node) -> Option<Shape> {
    let start = position(plan, node.uid)?;
    let mut shape = live_box(node, plan.path.as_slice());
    shape.start = start;
    shape.end = start.saturating_add(shape.latency as u64);
    shape.wave = wave(plan, node.uid);
    Some(shape)
}

/// The scene of a graph and its plan: the live nodes, each at its position.
pub(crate) fn aligned(alloc: Global, graph: &Checked, plan: &Plan) -> Result<Scene, AllocError> {
    let nodes = graph.graph().nodes.as_slice();
    let mut boxes = Vec::new(alloc);
    for index in graph.order().as_slice() {
        if let Some(node) = nodes.get(*index as usize)
            && let Some(shape) = planned_box(plan, node)
        {
            boxes.push(shape)?;
        }
    }
    let mut wires = Vec::new(alloc);
    for line in plan.lines.as_slice() {
        if let Some(wire) = planned_wire(graph, plan, boxes.as_slice(), line) {
            wires.push(wire)?;
        }
    }
    let totals = Totals {
        latency: plan.latency,
        nodes: nodes.len(),
        connections: graph.graph().connections.len(),
        plan: Some(PlanTotals {
            delays: plan.total,
            channels: plan.channels,
            peak: plan.peak,
        }),
    };
    Ok(Scene {
        boxes,
        wires,
        totals,
    })
}

/// Whether a node is live, by its uid.
fn is_live(graph: &Checked, uid: Uid) -> bool {
    match graph.graph().index_of(uid) {
        Some(index) if index < graph.graph().nodes.len() && index < 4294967296 => {
            graph.is_live(index as u32)
        }
        _ => false,
    }
}

/// The scene of a graph alone: all nodes at one time, so that depth alone parts them.
pub(crate) fn layered(alloc: Global, graph: &Checked) -> Result<Scene, AllocError> {
    let nodes = graph.graph().nodes.as_slice();
    let path = graph.path().as_slice();
    let mut boxes = Vec::new(alloc);
    for index in graph.order().as_slice() {
        if let Some(node) = nodes.get(*index as usize) {
            let mut shape = live_box(node, path);
            shape.is_live = is_live(graph, node.uid);
            boxes.push(shape)?;
        }
    }
    let mut wires = Vec::new(alloc);
    for connection in graph.graph().connections.as_slice() {
        if let Some(mut wire) = joined(boxes.as_slice(), connection, path) {
            wire.is_live = is_live(graph, connection.dst);
            wires.push(wire)?;
        }
    }
    let totals = Totals {
        latency: graph.latency(),
        nodes: nodes.len(),
        connections: graph.graph().connections.len(),
        plan: None,
    };
    Ok(Scene {
        boxes,
        wires,
        totals,
    })
}

//! Where boxes stand from left to right.

use crate::scene::{Scene, Shape, Wire};
use crate::sizes::Sizes;
use std::alloc::{AllocError, Global};

/// A moment, and how many boxes without latency stand one after the other at that moment before it.
#[derive(Clone, Copy, Debug, PartialEq, Eq, PartialOrd, Ord)]
pub(crate) struct Stop {
    pub(crate) time: u64,
    pub(crate) level: u64,
}

/// All stops, ascending, and for each box the places of the stops at which it begins and ends.
#[derive(Drop)]
pub(crate) struct Stops {
    pub(crate) all: Vec<Stop>,
    pub(crate) begins: Vec<usize>,
    pub(crate) ends: Vec<usize>,
    /// For each stop, whether a box begins there.
    pub(crate) is_used: Vec<bool>,
}

/// The level of a box behind those that wires into it leave at the same moment.
fn level_of(boxes: &[Shape], wires: &[Wire], levels: &[u64], at: usize) -> u64 {
    let mut level = 0u64;
    for wire in wires {
        if wire.to == at && begins_together(boxes, wire) {
            let before = levels.get(wire.from).copied().unwrap_or(0);
            level = level.max(before.saturating_add(1));
        }
    }
    level
}

/// Whether both boxes of a wire begin at one moment.
fn begins_together(boxes: &[Shape], wire: &Wire) -> bool {
    match (boxes.get(wire.from), boxes.get(wire.to)) {
        (Some(from), Some(to)) => from.start == to.start,
        _ => false,
    }
}

/// The levels of all boxes, of which each stands after the sources of its wires.
fn levels_of(alloc: Global, scene: &Scene) -> Result<Vec<u64>, AllocError> {
    let mut levels = Vec::new(alloc);
    for at in 0..scene.boxes.len() {
        let level = level_of(
            scene.boxes.as_slice(),
            scene.wires.as_slice(),
            levels.as_slice(),
            at,
        );
        levels.push(level)?;
    }
    Ok(levels)
}

/// Where a box ends: at the end of its latency, or for an instant right behind where it begins.
fn end_of(shape: &Shape, begin: &Stop) -> Stop {
    if shape.end > shape.start {
        return Stop {
            time: shape.end,
            level: 0,
        };
    }
    Stop {
        time: begin.time,
        level: begin.level.saturating_add(1),
    }
}

/// Where each box begins.
fn begins_of(alloc: Global, scene: &Scene) -> Result<Vec<Stop>, AllocError> {
    let levels = levels_of(alloc, scene)?;
    let mut begins = Vec::new(alloc);
    for (shape, level) in scene.boxes.iter().zip(levels.iter()) {
        begins.push(Stop {
            time: shape.start,
            level: *level,
        })?;
    }
    Ok(begins)
}

/// The stops at which boxes begin or end, ascending, each once.
fn all_of(alloc: Global, scene: &Scene, begins: &[Stop]) -> Result<Vec<Stop>, AllocError> {
    let mut all = Vec::new(alloc);
    for (shape, begin) in scene.boxes.iter().zip(begins.iter()) {
        all.push(*begin)?;
        all.push(end_of(shape, begin))?;
    }
    all.sort()?;
    all.dedup();
    Ok(all)
}

/// The place of a stop among all of them.
fn place(all: &[Stop], stop: &Stop) -> usize {
    let (time, level) = (stop.time, stop.level);
    all.iter()
        .position(|one| one.time == time && one.level == level)
        .unwrap_or(0)
}

/// The stops of a scene.
pub(crate) fn stops_of(alloc: Global, scene: &Scene) -> Result<Stops, AllocError> {
    let begins = begins_of(alloc, scene)?;
    let all = all_of(alloc, scene, begins.as_slice())?;
    let mut places = Vec::new(alloc);
    let mut ends = Vec::new(alloc);
    let mut is_used = vec![in alloc; false; all.len()]?;
    for (shape, begin) in scene.boxes.iter().zip(begins.iter()) {
        let at = place(all.as_slice(), begin);
        places.push(at)?;
        ends.push(place(all.as_slice(), &end_of(shape, begin)))?;
        if let Some(used) = is_used.get_mut(at) {
            *used = true;
        }
    }
    Ok(Stops {
        all,
        begins: places,
        ends,
        is_used,
    })
}

/// The place from the left at which a moment stands if nothing needs more room.
fn scaled(time: u64, last: u64, span: u64) -> u64 {
    if last == 0 {
        return 0;
    }
    time.min(last).saturating_mul(span) / last
}

/// Where the first stop stands.
pub(crate) const MARGIN: u64 = 24;

/// Where each stop stands from the left.
pub(crate) fn edges(alloc: Global, stops: &Stops, sizes: &Sizes) -> Result<Vec<u64>, AllocError> {
    let last = stops.all.iter().map(|stop| stop.time).max().unwrap_or(0);
    let last = last.min(4294967295);
    let step = sizes.width.saturating_add(sizes.gap);
    let mut edges = Vec::new(alloc);
    let mut least = MARGIN;
    for (stop, is_used) in stops.all.iter().zip(stops.is_used.iter()) {
        let moment = MARGIN.saturating_add(scaled(stop.time, last, sizes.span));
        let edge = if stop.level == 0 {
            moment.max(least)
        } else {
            least
        };
        edges.push(edge)?;
        least = edge.saturating_add(if *is_used { step } else { sizes.gap });
    }
    Ok(edges)
}

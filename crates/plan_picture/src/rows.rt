//! Where boxes stand from the top.

use crate::scene::{Scene, Wire};
use crate::sizes::Sizes;
use crate::stops::Stops;
use std::alloc::{AllocError, Global};

/// The row of each box, and how many rows there are.
#[derive(Drop)]
pub(crate) struct Rows {
    pub(crate) of: Vec<usize>,
    pub(crate) count: usize,
}

/// The stop up to which the row of a box is taken: where it ends, or where the last box begins that reads it.
fn taken_until(wires: &[Wire], begins: &[usize], end: usize, at: usize) -> usize {
    let mut until = end;
    for wire in wires {
        if wire.from == at {
            until = until.max(begins.get(wire.to).copied().unwrap_or(0));
        }
    }
    until
}

/// The row of the first box that a box reads.
fn row_of_source(wires: &[Wire], of: &[usize], at: usize) -> usize {
    match wires.iter().find(|wire| wire.to == at) {
        Some(wire) => of.get(wire.from).copied().unwrap_or(0),
        None => 0,
    }
}

/// The row that is free from a stop on and nearest to another one; a new one where none is.
fn free_row(until: &[usize], from: usize, begin: usize, wanted: usize) -> usize {
    let mut best = until.len();
    let mut distance = usize::MAX;
    for (row, taken) in until.iter().enumerate().skip(from) {
        let off = row.abs_diff(wanted);
        if *taken <= begin && off < distance {
            best = row;
            distance = off;
        }
    }
    best
}

/// Takes a row up to a stop.
fn take(until: &mut Vec<usize>, row: usize, end: usize) -> Result<(), AllocError> {
    match until.get_mut(row) {
        Some(taken) => *taken = end,
        None => until.push(end)?,
    }
    Ok(())
}

/// Gives a box its row. The first row is for the path alone.
fn settle(
    scene: &Scene,
    stops: &Stops,
    of: &mut Vec<usize>,
    until: &mut Vec<usize>,
    at: usize,
) -> Result<(), AllocError> {
    let Some(shape) = scene.boxes.get(at) else {
        return Ok(());
    };
    let wires = scene.wires.as_slice();
    let begin = stops.begins.get(at).copied().unwrap_or(0);
    let end = stops.ends.get(at).copied().unwrap_or(0);
    let from = if shape.is_on_path { 0 } else { 1 };
    let wanted = if shape.is_on_path {
        0
    } else {
        row_of_source(wires, of.as_slice(), at)
    };
    let row = free_row(until.as_slice(), from, begin, wanted);
    take(
        until,
        row,
        taken_until(wires, stops.begins.as_slice(), end, at),
    )?;
    if let Some(place) = of.get_mut(at) {
        *place = row;
    }
    Ok(())
}

/// The rows of the boxes, from stop to stop: no box or wire that runs in a row meets another box there.
pub(crate) fn rows_of(alloc: Global, scene: &Scene, stops: &Stops) -> Result<Rows, AllocError> {
    let mut of = vec![in alloc; 0usize; scene.boxes.len()]?;
    let mut until = vec![in alloc; 0usize; 1]?;
    for stop in 0..stops.all.len() {
        for (at, begin) in stops.begins.iter().enumerate() {
            if *begin == stop {
                settle(scene, stops, &mut of, &mut until, at)?;
            }
        }
    }
    let count = until.len();
    Ok(Rows { of, count })
}

/// The height of a row: that of its highest box.
fn height(scene: &Scene, rows: &Rows, sizes: &Sizes, row: usize) -> u64 {
    let mut height = sizes.height;
    for (shape, of) in scene.boxes.iter().zip(rows.of.iter()) {
        if *of == row {
            height = height.max(sizes.box_height(shape.channels));
        }
    }
    height
}

/// Where the first row stands, below the words.
pub(crate) const HEAD: u64 = 96;

/// Where each row begins from the top, and at last where they end.
pub(crate) fn tops(
    alloc: Global,
    scene: &Scene,
    rows: &Rows,
    sizes: &Sizes,
) -> Result<Vec<u64>, AllocError> {
    let mut tops = Vec::new(alloc);
    let mut top = HEAD;
    for row in 0..rows.count {
        tops.push(top)?;
        let next = height(scene, rows, sizes, row).saturating_add(sizes.space);
        top = top.saturating_add(next);
    }
    tops.push(top)?;
    Ok(tops)
}

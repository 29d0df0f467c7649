//! The positions that potentials give, and the delays between them.

ghost use Rattle.std.specs.Prelude.{◌≡◌, ◌<◌, ◌≤◌, ◌^◌, drop, length, map, sum_by, IfOk};
ghost use Rattle.std.specs.List.{All};
ghost use Rattle.shortest_paths.specs.Walks.{number_of, from_zero};
ghost use Rattle.alignment.specs.Places.{ArePositions, IsTimely, places_of, delay_of, line_of};

use crate::links::Link;
use graph_model::{List, Uid};
use plan_model::{At, LineAt};
use std::alloc::{AllocError, Global};

/// The position of a point, in frames: its potential, which is from 0 on.
fn position(potentials: &[i64], point: usize) -> u64
    requires positions { ArePositions potentials.now }
    requires point { point < length potentials.now }
    ensures at { result ≡ from_zero (number_of potentials.now point) }
    ensures small { result ≤ 2 ^ 26 }
{
    potentials[point] as u64
}

/// The positions of the live nodes.
pub(crate) fn places(
    alloc: Global,
    points: &[u32],
    potentials: &[i64],
) -> Result<List<At>, AllocError>
    requires each { length potentials.now ≡ length points.now }
    requires positions { ArePositions potentials.now }
    ensures { IfOk result (λ v. v ≡ places_of (drop 1 points.now) (drop 1 potentials.now)) }
{
    let mut places = List::new(alloc);
    for point in 1..points.len() {
        places.push(At {
            uid: Uid(points[point]),
            at: position(potentials, point),
        })?;
    }
    Ok(places)
}

/// What a link holds back, in frames: what is left between the end of its source and its destination.
pub(crate) fn delay(link: &Link, potentials: &[i64]) -> u64
    requires positions { ArePositions potentials.now }
    requires timely { IsTimely potentials.now link.now }
    ensures value { result ≡ delay_of potentials.now link.now }
    ensures small { result ≤ 2 ^ 26 }
{
    let ready = position(potentials, link.head as usize);
    let early = position(potentials, link.tail as usize) + link.latency as u64;
    ready - early
}

/// The delay lines of the links, in their order.
pub(crate) fn lines(
    alloc: Global,
    links: &[Link],
    potentials: &[i64],
) -> Result<List<LineAt>, AllocError>
    requires positions { ArePositions potentials.now }
    requires timely { All (IsTimely potentials.now) links.now }
    ensures { IfOk result (λ v. v ≡ map (line_of potentials.now) links.now) }
{
    let mut lines = List::new(alloc);
    for link in links {
        lines.push(LineAt {
            connection: link.index,
            delay: delay(link, potentials),
        })?;
    }
    Ok(lines)
}

/// The sum of what the links hold back, in frames.
pub(crate) fn total(links: &[Link], potentials: &[i64]) -> u64
    requires few { length links.now ≤ 2 ^ 13 }
    requires positions { ArePositions potentials.now }
    requires timely { All (IsTimely potentials.now) links.now }
    ensures { result ≡ sum_by (delay_of potentials.now) links.now }
{
    let mut total = 0;
    for link in links {
        total += delay(link, potentials);
    }
    total
}

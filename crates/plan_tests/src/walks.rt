//! Worked walks of least cost.

ghost use Rattle.std.specs.Prelude.{◌≡◌};

use shortest_paths::{Edge, distances, nearest};
use std::test::Fail;

// From `tail` to `head` at this cost.
fn edge(tail: u32, head: u32, cost: i64) -> Edge
    ensures { result ≡ record { tail = tail; head = head; cost = cost } }
{
    Edge { tail, head, cost }
}

#[test]
fn three_points(rt: HostRuntime) -> Result<(), Fail> {
    let alloc = rt.alloc();
    let edges = [edge(0, 1, 2), edge(1, 2, -5), edge(0, 2, 0)];
    let found = distances(alloc, 3, &edges, 0)?;
    assert_eq!(rt; found.least.as_slice(), [0, 2, -3].as_slice());
    assert_eq!(rt; found.last.as_slice(), [None, Some(0), Some(1)].as_slice());
    Ok(())
}

#[test]
fn the_cheaper_of_two_walks_and_a_cycle_of_no_cost(rt: HostRuntime) -> Result<(), Fail> {
    let alloc = rt.alloc();
    let edges = [edge(0, 1, 4), edge(0, 2, 1), edge(2, 1, 2), edge(1, 2, -2)];
    let found = distances(alloc, 3, &edges, 0)?;
    assert_eq!(rt; found.least.as_slice(), [0, 3, 1].as_slice());
    assert_eq!(rt; found.last.as_slice(), [None, Some(2), Some(1)].as_slice());
    Ok(())
}

#[test]
fn the_nearer_of_two_walks(rt: HostRuntime) -> Result<(), Fail> {
    let alloc = rt.alloc();
    let edges = [edge(0, 1, 2), edge(1, 2, 3), edge(0, 2, 9)];
    let found = nearest(alloc, 3, &edges, 0)?;
    assert_eq!(rt; found.least.as_slice(), [0, 2, 5].as_slice());
    assert_eq!(rt; found.last.as_slice(), [None, Some(0), Some(1)].as_slice());
    Ok(())
}

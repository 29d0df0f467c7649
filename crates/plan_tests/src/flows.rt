//! Worked networks: a flow, and potentials that are its dual.

ghost use Rattle.std.specs.Prelude.{◌≡◌};

use graph_model::List;
use min_cost_flow::{Arc, Network, solve};
use std::test::Fail;

// From `tail` to `head` with this least difference.
fn arc(tail: u32, head: u32, least: i64) -> Arc
    ensures { result ≡ record { tail = tail; head = head; least = least } }
{
    Arc { tail, head, least }
}

#[test]
fn a_network_of_no_differences(rt: HostRuntime) -> Result<(), Fail> {
    let alloc = rt.alloc();
    let arcs = [
        arc(1, 2, 0),
        arc(0, 1, 0),
        arc(0, 2, 0),
        arc(1, 0, 0),
        arc(2, 0, 0),
    ];
    let need = [0, -1, 1];
    let net = Network {
        points: 3,
        arcs: List::from_slice(alloc, &arcs)?,
        need: List::from_slice(alloc, &need)?,
    };
    let solved = solve(alloc, &net)?;
    assert_eq!(rt; solved.potential.as_slice(), [0, 0, 0].as_slice());
    Ok(())
}

#[test]
fn an_insert_on_one_of_two_ways(rt: HostRuntime) -> Result<(), Fail> {
    let alloc = rt.alloc();
    let arcs = [
        arc(1, 2, 0),
        arc(1, 3, 0),
        arc(3, 2, 5),
        arc(0, 1, 0),
        arc(0, 2, 0),
        arc(0, 3, 0),
        arc(1, 0, 0),
        arc(2, 0, -5),
    ];
    let need = [0, -2, 2, 0];
    let net = Network {
        points: 4,
        arcs: List::from_slice(alloc, &arcs)?,
        need: List::from_slice(alloc, &need)?,
    };
    let solved = solve(alloc, &net)?;
    assert_eq!(rt; solved.potential.as_slice(), [0, 0, 5, 0].as_slice());
    let mut total: i128 = 0;
    for (arc, units) in arcs.iter().zip(solved.flow.as_slice()) {
        total = total.wrapping_add((*units as i128).wrapping_mul(arc.least as i128));
    }
    assert_eq!(rt; total, 10);
    Ok(())
}

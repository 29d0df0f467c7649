//! What no clause says: that the definitions are those that were meant. The values were found by hand and by a script
//! of their own.

use connections::check;
use graph_gen::{graph_of, samples_of};
use graph_model::{Graph, Kind, Node};
use std::alloc::{AllocError, Global};
use std::test::Fail;
use test_graphs::{delay, gain, graph_of as graph_from, input, joined_at, node, output};

/// The least graph: node 3, and its connections from a channel of node 1 and to channel 1 of node 2.
fn least(alloc: Global, third: Node, channel: u32) -> Result<Graph, AllocError> {
    let nodes = vec![in alloc; input(1, 2), output(2, 2), third]?;
    let ways = [joined_at(1, channel, 3, 0), joined_at(3, 0, 2, 1)];
    graph_from(alloc, nodes, &ways)
}

#[test]
fn the_ends_of_the_seeds(rt: HostRuntime) -> Result<(), Fail> {
    let alloc = rt.alloc();
    let first = least(alloc, delay(3, 1, 25), 1)?;
    assert!(rt; graph_of(alloc, 0, 3)? == first);
    let section = Kind::Biquad {
        channels: 1,
        b0: 4096,
        b1: 8192,
        b2: 4096,
        a1: 0,
        a2: 2048,
        shift: 14,
        bits: 32,
    };
    let last = least(alloc, node(3, section), 1)?;
    assert!(rt; graph_of(alloc, u64::MAX, 3)? == last);
    Ok(())
}

/// Both sources of node 3 are channel 1 of node 1, so one connection leads there; node 4 has two; nobody reads nodes 4
/// and 5.
#[test]
fn two_gains_and_a_limiter(rt: HostRuntime) -> Result<(), Fail> {
    let alloc = rt.alloc();
    let limiter = Kind::Limiter {
        channels: 1,
        threshold: 3920689,
        lookahead: 2,
    };
    let nodes = vec![in alloc;
        input(1, 2),
        output(2, 2),
        gain(3, 13825),
        gain(4, 22808),
        node(5, limiter),
    ]?;
    let ways = [
        joined_at(1, 1, 3, 0),
        joined_at(1, 0, 4, 0),
        joined_at(3, 0, 4, 0),
        joined_at(1, 1, 5, 0),
        joined_at(4, 0, 2, 0),
        joined_at(5, 0, 2, 1),
    ];
    assert!(rt; graph_of(alloc, 193, 5)? == graph_from(alloc, nodes, &ways)?);
    Ok(())
}

#[test]
fn the_largest_graph_is_accepted(rt: HostRuntime) -> Result<(), Fail> {
    let alloc = rt.alloc();
    let checked = check(alloc, graph_of(alloc, 1, 512)?)?;
    assert_eq!(rt; checked.graph().nodes.len(), 512);
    assert_eq!(rt; checked.graph().connections.len(), 827);
    assert_eq!(rt; checked.latency(), 133);
    Ok(())
}

#[test]
fn samples_of_the_ends_of_the_seeds(rt: HostRuntime) -> Result<(), Fail> {
    let alloc = rt.alloc();
    let first = [335872000, 436731904, -1695154176, 1723203584];
    assert!(rt; samples_of(alloc, 0, 2)?.as_slice() == first.as_slice());
    let last = [-1145896960, -1314324480];
    assert!(rt; samples_of(alloc, u64::MAX, 1)?.as_slice() == last.as_slice());
    Ok(())
}

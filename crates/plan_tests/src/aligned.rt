//! Worked examples, whose values come from outside, and a large graph.

ghost use Rattle.std.specs.Prelude.{IfOk};
ghost use Rattle.graph_model.specs.Sound.{Fits};

use alignment::{Aligned, align, align_shared};
use connections::check;
use graph_model::{Connection, Graph, List, Node, Uid};
use plan_model::{AlignedShared, At, LineAt};
use std::alloc::{AllocError, Global};
use std::test::Fail;
use test_graphs::{fan_out, gain, graph_of, input, insert, joined, joined_at, mixer, output};

/// The alignment of a graph that has to be sound.
fn aligned(alloc: Global, nodes: Vec<Node>, connections: &[Connection]) -> Result<Aligned, Fail> {
    let checked = check(alloc, graph_of(alloc, nodes, connections)?)?;
    Ok(align(alloc, &checked)?)
}

fn at(uid: u32, at: u64) -> At {
    At { uid: Uid(uid), at }
}

fn line(connection: u32, delay: u64) -> LineAt {
    LineAt { connection, delay }
}

/// The earliest alignment has 15: the gain stands at 0, and three connections wait behind it.
#[test]
fn a_gain_waits_before_it_fans_out(rt: HostRuntime) -> Result<(), Fail> {
    let alloc = rt.alloc();
    let checked = check(alloc, fan_out(alloc)?)?;
    let aligned = align(alloc, &checked)?;
    let places = [at(1, 0), at(2, 5), at(3, 0), at(4, 5)];
    assert_eq!(rt; aligned.at.as_slice(), places.as_slice());
    let lines = [
        line(0, 0),
        line(1, 0),
        line(2, 5),
        line(3, 0),
        line(4, 0),
        line(5, 0),
    ];
    assert_eq!(rt; aligned.lines.as_slice(), lines.as_slice());
    assert_eq!(rt; (aligned.total, aligned.bound), (5, 5));
    Ok(())
}

/// The earliest alignment has 15, and the latest 10.
#[test]
fn a_mixer_stays_and_the_gain_behind_it_waits(rt: HostRuntime) -> Result<(), Fail> {
    let alloc = rt.alloc();
    let mixer = mixer(alloc, 3, 2, 1, &[32768, 32768])?;
    let nodes = vec![in alloc;
        input(1, 2),
        output(2, 3),
        mixer,
        gain(4, 655),
        insert(5, 5),
    ]?;
    let ways = [
        joined(1, 3),
        joined_at(1, 1, 3, 1),
        joined(3, 4),
        joined(4, 2),
        joined_at(4, 0, 2, 1),
        joined_at(4, 0, 2, 2),
        joined(1, 5),
        joined(5, 2),
    ];
    let aligned = aligned(alloc, nodes, &ways)?;
    let places = [at(1, 0), at(2, 5), at(3, 0), at(4, 5), at(5, 0)];
    assert_eq!(rt; aligned.at.as_slice(), places.as_slice());
    assert_eq!(rt; (aligned.total, aligned.bound), (5, 5));
    Ok(())
}

/// A total of 5 comes wherever along the row the delay stands.
#[test]
fn of_equal_totals_the_earliest_is_taken(rt: HostRuntime) -> Result<(), Fail> {
    let alloc = rt.alloc();
    let nodes = vec![in alloc;
        input(1, 1),
        output(2, 1),
        gain(3, 655),
        gain(4, 655),
        insert(5, 5),
    ]?;
    let ways = [
        joined(1, 3),
        joined(3, 4),
        joined(4, 2),
        joined(1, 5),
        joined(5, 2),
    ];
    let aligned = aligned(alloc, nodes, &ways)?;
    let places = [at(1, 0), at(2, 5), at(3, 0), at(4, 0), at(5, 0)];
    assert_eq!(rt; aligned.at.as_slice(), places.as_slice());
    assert_eq!(rt; (aligned.total, aligned.bound), (5, 5));
    Ok(())
}

#[test]
fn idle_nodes_have_no_position(rt: HostRuntime) -> Result<(), Fail> {
    let alloc = rt.alloc();
    let nodes = vec![in alloc; input(1, 1), output(2, 1), gain(3, 655)]?;
    let beside = aligned(alloc, nodes, &[joined(3, 2)])?;
    assert_eq!(rt; beside.at.as_slice(), [at(2, 0), at(3, 0)].as_slice());
    assert_eq!(rt; beside.lines.as_slice(), [line(0, 0)].as_slice());
    let nodes = vec![in alloc; input(1, 1), output(2, 1), gain(3, 655)]?;
    let alone = aligned(alloc, nodes, &[])?;
    assert_eq!(rt; alone.at.as_slice(), [at(2, 0)].as_slice());
    assert_eq!(rt; alone.lines.len(), 0);
    assert_eq!(rt; (beside.total, alone.total), (0, 0));
    Ok(())
}

#[test]
fn equal_latencies_need_no_delay(rt: HostRuntime) -> Result<(), Fail> {
    let alloc = rt.alloc();
    let nodes = vec![in alloc; input(1, 1), output(2, 1), insert(3, 5), insert(4, 5)]?;
    let ways = [joined(1, 3), joined(1, 4), joined(3, 2), joined(4, 2)];
    let aligned = aligned(alloc, nodes, &ways)?;
    assert_eq!(rt; (aligned.total, aligned.bound), (0, 0));
    Ok(())
}

/// A longer way beside it does not let the input come later: its connection waits.
#[test]
fn the_input_stays_at_0(rt: HostRuntime) -> Result<(), Fail> {
    let alloc = rt.alloc();
    let nodes = vec![in alloc; input(1, 1), output(2, 2), insert(3, 5)]?;
    let ways = [joined(3, 2), joined_at(1, 0, 2, 1)];
    let aligned = aligned(alloc, nodes, &ways)?;
    let places = [at(1, 0), at(2, 5), at(3, 0)];
    assert_eq!(rt; aligned.at.as_slice(), places.as_slice());
    assert_eq!(rt; (aligned.total, aligned.bound), (5, 5));
    Ok(())
}

/// Gains and inserts in turn, between an input under 1 and an output under 512.
fn many_nodes(alloc: Global) -> Result<Vec<Node>, AllocError> {
    let mut nodes = vec![in alloc; input(1, 1), output(512, 1)]?;
    for uid in 2..512 {
        if uid % 2 == 0 {
            nodes.push(insert(uid, 1 + uid % 13))?;
        } else {
            nodes.push(gain(uid, 655))?;
        }
    }
    Ok(nodes)
}

/// Connections into each node from those at a half and at two thirds of its uid, and into the output from the others.
fn many_ways(alloc: Global) -> Result<Vec<Connection>, AllocError> {
    let mut ways = Vec::new(alloc);
    for uid in 2..512 {
        ways.push(joined(uid / 2, uid))?;
        if uid / 2 < uid * 2 / 3 {
            ways.push(joined(uid * 2 / 3, uid))?;
        }
        if uid > 340 {
            ways.push(joined(uid, 512))?;
        }
    }
    Ok(ways)
}

/// The least total is that of another program, a network simplex; the earliest alignment has 8361.
#[test]
fn a_large_graph_meets_its_bound(rt: HostRuntime) -> Result<(), Fail> {
    let alloc = rt.alloc();
    let ways = many_ways(alloc)?;
    let aligned = aligned(alloc, many_nodes(alloc)?, &ways)?;
    assert_eq!(rt; (aligned.total, aligned.bound), (5726, 5726));
    assert_eq!(rt; aligned.lines.len(), ways.len());
    let delays = aligned.lines.as_slice().iter().map(|line| line.delay);
    assert_eq!(rt; delays.fold(0, u64::wrapping_add), aligned.total);
    let uids = aligned.at.as_slice().iter().map(|at| at.uid.0);
    assert!(rt; uids.eq(1..513));
    Ok(())
}

/// Three gains beside an insert of 5, all of one channel.
fn fan(alloc: Global) -> Result<Graph, AllocError>
    ensures { IfOk result Fits }
{
    let nodes = vec![in alloc;
        input(1, 1),
        output(2, 1),
        gain(3, 65536),
        gain(4, 65536),
        gain(5, 65536),
        insert(6, 5),
    ]?;
    let ways = [
        joined(1, 3),
        joined(1, 4),
        joined(1, 5),
        joined(1, 6),
        joined(3, 2),
        joined(4, 2),
        joined(5, 2),
        joined(6, 2),
    ];
    graph_of(alloc, nodes, &ways)
}

/// The alignment of a graph with a line for each value.
fn shared_of(alloc: Global, graph: Graph) -> Result<AlignedShared, Fail>
    requires { Fits graph }
{
    let checked = check(alloc, graph)?;
    Ok(align_shared(alloc, &checked)?)
}

/// Its total and its bound, the positions of the nodes, and the lines of the values.
fn numbers_in(alloc: Global, shared: &AlignedShared) -> Result<List<u64>, AllocError> {
    let mut numbers = List::from_slice(alloc, &[shared.total, shared.bound])?;
    for place in shared.at.as_slice() {
        numbers.push(place.at)?;
    }
    for line in shared.lines.as_slice() {
        numbers.push(line.delay)?;
    }
    Ok(numbers)
}

/// The same of a graph.
fn shared_numbers(alloc: Global, graph: Graph) -> Result<List<u64>, Fail>
    requires { Fits graph }
{
    let shared = shared_of(alloc, graph)?;
    Ok(numbers_in(alloc, &shared)?)
}

/// The gains wait behind one line; with a line for each connection, three lines are as long.
#[test]
fn three_readers_wait_behind_one_line(rt: HostRuntime) -> Result<(), Fail> {
    let alloc = rt.alloc();
    let fan = shared_numbers(alloc, fan(alloc)?)?;
    assert_eq!(rt;
        fan.as_slice(),
        [5, 5, 0, 5, 5, 5, 5, 0, 5, 0, 0, 0, 0].as_slice()
    );
    Ok(())
}

/// A gain whose readers share a line need not wait: its value is read three times late, by one line.
#[test]
fn a_gain_whose_readers_share_a_line_need_not_wait(rt: HostRuntime) -> Result<(), Fail> {
    let alloc = rt.alloc();
    let fan_out = shared_numbers(alloc, fan_out(alloc)?)?;
    assert_eq!(rt; fan_out.as_slice(), [5, 5, 0, 5, 0, 0, 0, 0, 5].as_slice());
    Ok(())
}

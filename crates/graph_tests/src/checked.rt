//! What no clause says: worked examples, the order of the refusals, and their texts.

ghost use Rattle.std.specs.Prelude.{◌<◌, length, IfOk};
ghost use Rattle.graph_model.specs.Sound.{Fits};

use connections::{Checked, Ends, GraphFault, check};
use graph_model::{Connection, Graph, Kind, Node, Refused};
use std::alloc::{AllocError, Global};
use std::test::Fail;
use test_graphs::{
    delay, fan_out, fir, gain, graph_of, in_a_row, input, insert, joined, joined_at, mixer, output,
    with_idle,
};

/// What is told of a graph as a whole.
fn facts(alloc: Global, checked: &Checked) -> Result<String, Fail> {
    let order = checked.order().as_slice();
    let path = checked.path().as_slice();
    Ok(format!(in alloc;
        "{} of {} to {} of {}, latency {}, order {order:?}, path {path:?}",
        checked.input(),
        checked.input_channels(),
        checked.output(),
        checked.output_channels(),
        checked.latency(),
    )?)
}

/// What is told of a node.
fn node_facts(alloc: Global, checked: &Checked, node: u32) -> Result<String, Fail>
    requires { node < length checked.now.nodes }
{
    let bound = checked.bound(node);
    let ins = bound.ins.as_slice();
    let outs = bound.outs.as_slice();
    let live = checked.is_live(node);
    Ok(format!(in alloc; "{} {live} {ins:?} {outs:?}; ", checked.reach(node))?)
}

/// What is told of all nodes.
fn all_node_facts(alloc: Global, checked: &Checked) -> Result<String, Fail> {
    let mut text = String::new(alloc);
    for node in 0..checked.graph().nodes.len() {
        text.push_str(node_facts(alloc, checked, node as u32)?.as_str())?;
    }
    Ok(text)
}

/// Whether these are told of a graph and its nodes.
fn tells(alloc: Global, checked: &Checked, graph: &str, nodes: &str) -> Result<bool, Fail> {
    Ok(
        facts(alloc, checked)?.as_str() == graph
            && all_node_facts(alloc, checked)?.as_str() == nodes,
    )
}

#[test]
fn an_accepted_graph_tells_what_the_definitions_give(rt: HostRuntime) -> Result<(), Fail> {
    let alloc = rt.alloc();
    let checked = check(alloc, fan_out(alloc)?)?;
    assert!(rt;
        tells(
            alloc,
            &checked,
            "0 of 1 to 1 of 3, latency 5, order [0, 2, 3, 1], path [Uid(1), Uid(3), Uid(2)]",
            "0 true [] [2147483648]; 5 true [4294967296, 2147483648, 2147483648] []; \
         0 true [2147483648] [2147483648]; 0 true [2147483648] [2147483648]; ",
        )?
    );
    Ok(())
}

/// The output first and the input third, an insert of 7 between them, and a delay that leads nowhere.
fn led_by_names(alloc: Global) -> Result<Graph, AllocError>
    ensures { IfOk result Fits }
{
    let nodes = vec![in alloc; output(9, 1), delay(4, 1, 3), input(8, 1), insert(5, 7)]?;
    graph_of(alloc, nodes, &[joined(5, 9), joined(8, 5), joined(8, 4)])
}

#[test]
fn names_decide_and_not_places(rt: HostRuntime) -> Result<(), Fail> {
    let alloc = rt.alloc();
    let checked = check(alloc, led_by_names(alloc)?)?;
    assert!(rt;
        tells(
            alloc,
            &checked,
            "2 of 1 to 0 of 1, latency 7, order [2, 1, 3, 0], path [Uid(8), Uid(5), Uid(9)]",
            "7 true [2147483648] []; 0 false [2147483648] [2147483648]; \
         0 true [] [2147483648]; 0 true [2147483648] [2147483648]; ",
        )?
    );
    if checked.graph().connections.len() == 3 {
        let Ends {
            source,
            destination,
        } = checked.ends(2);
        assert!(rt; source == 2 && destination == 1);
    }
    Ok(())
}

/// Three sums of the two channels of the input.
fn mixed(alloc: Global) -> Result<Graph, AllocError>
    ensures { IfOk result Fits }
{
    let mixer = mixer(alloc, 3, 2, 3, &[65536, 0, 131072, -65536, 0, 32768])?;
    let nodes = vec![in alloc; input(1, 2), output(2, 3), mixer]?;
    let ways = [
        joined(1, 3),
        joined_at(1, 1, 3, 1),
        joined(3, 2),
        joined_at(3, 1, 2, 1),
        joined_at(3, 2, 2, 2),
    ];
    graph_of(alloc, nodes, &ways)
}

#[test]
fn the_gains_of_a_mixer_stand_by_output(rt: HostRuntime) -> Result<(), Fail> {
    let alloc = rt.alloc();
    let checked = check(alloc, mixed(alloc)?)?;
    let told = all_node_facts(alloc, &checked)?;
    assert_eq!(rt;
        told.as_str(),
        "0 true [] [2147483648, 2147483648]; 0 true [2147483648, 6442450944, 1073741824] []; \
         0 true [2147483648, 2147483648] [2147483648, 6442450944, 1073741824]; "
    );
    Ok(())
}

/// The fault of a graph, and none where it is sound.
fn fault_of(alloc: Global, graph: Graph) -> Result<Option<GraphFault>, AllocError>
    requires { Fits graph }
{
    match check(alloc, graph) {
        Ok(_checked) => Ok(None),
        Err(Refused::Fault(fault)) => Ok(Some(fault)),
        Err(Refused::Memory) => Err(AllocError),
    }
}

/// Whether a graph is refused with that text, or sound where the text is empty.
fn is_told(alloc: Global, graph: Graph, text: &str) -> Result<bool, Fail>
    requires { Fits graph }
{
    match fault_of(alloc, graph)? {
        Some(fault) => Ok(format!(in alloc; "{fault}")?.as_str() == text),
        None => Ok(text.is_empty()),
    }
}

/// The same of connections between an input, an output and a gain, nodes 1, 2 and 3, of one channel.
fn is_told_over(alloc: Global, connections: &[Connection], text: &str) -> Result<bool, Fail> {
    let nodes = vec![in alloc; input(1, 1), output(2, 1), gain(3, 65536)]?;
    is_told(alloc, graph_of(alloc, nodes, connections)?, text)
}

#[test]
fn a_connection_is_refused_by_its_first_fault(rt: HostRuntime) -> Result<(), Fail> {
    let alloc = rt.alloc();
    assert!(rt; is_told_over(alloc, &[joined(1, 9)], "connection 0: no node 9")?);
    assert!(rt; is_told_over(alloc, &[joined(8, 9)], "connection 0: no node 8")?);
    assert!(rt;
        is_told_over(
            alloc,
            &[joined(3, 3)],
            "connection 0 joins a node to itself"
        )?
    );
    assert!(rt;
        is_told_over(
            alloc,
            &[joined_at(1, 1, 2, 2)],
            "connection 0: channel 1 of 1"
        )?
    );
    assert!(rt;
        is_told_over(
            alloc,
            &[joined_at(1, 0, 2, 2)],
            "connection 0: channel 2 of 1"
        )?
    );
    Ok(())
}

#[test]
fn connections_are_taken_one_by_one(rt: HostRuntime) -> Result<(), Fail> {
    let alloc = rt.alloc();
    let twice = [joined(1, 2), joined(1, 3), joined(1, 3), joined(1, 9)];
    assert!(rt; is_told_over(alloc, &twice, "connection 2 stands already at 1")?);
    let nowhere = [joined(1, 2), joined(1, 9), joined(1, 2)];
    assert!(rt; is_told_over(alloc, &nowhere, "connection 1: no node 9")?);
    Ok(())
}

/// The same of nodes with a connection to no node.
fn is_told_among(alloc: Global, nodes: Vec<Node>, text: &str) -> Result<bool, Fail> {
    is_told(alloc, graph_of(alloc, nodes, &[joined(1, 9)])?, text)
}

/// The same of a node between a good one and one that is not.
fn is_told_between(alloc: Global, node: Node, text: &str) -> Result<bool, Fail> {
    let nodes = vec![in alloc; gain(5, 1 << 20), node, output(8, 0)]?;
    is_told_among(alloc, nodes, text)
}

#[test]
fn uids_come_before_members(rt: HostRuntime) -> Result<(), Fail> {
    let alloc = rt.alloc();
    let nodes = vec![in alloc;
        output(3, 0),
        output(2, 1),
        gain(4, 1),
        gain(2, 1),
        gain(3, 1),
    ]?;
    assert!(rt; is_told_among(alloc, nodes, "uid 2 stands twice, at 1 and 3")?);
    Ok(())
}

#[test]
fn members_come_before_ends(rt: HostRuntime) -> Result<(), Fail> {
    let alloc = rt.alloc();
    let past = (1 << 20) + 1;
    assert!(rt; is_told_between(alloc, gain(0, 1 << 30), "node 0: uid is out of range")?);
    assert!(rt; is_told_between(alloc, gain(7, past), "node 7: gain is out of range")?);
    assert!(rt; is_told_between(alloc, insert(7, 1048577), "node 7: samples is out of range")?);
    assert!(rt; is_told_between(alloc, output(7, 33), "node 7: channels is out of range")?);
    Ok(())
}

#[test]
fn there_is_one_input_and_one_output(rt: HostRuntime) -> Result<(), Fail> {
    let alloc = rt.alloc();
    let nodes = vec![in alloc; input(1, 1), output(2, 1), input(3, 1)]?;
    assert!(rt; is_told_among(alloc, nodes, "2 input nodes and 1 output nodes")?);
    Ok(())
}

#[test]
fn a_cycle_of_idle_nodes_is_refused(rt: HostRuntime) -> Result<(), Fail> {
    let alloc = rt.alloc();
    let nodes = vec![in alloc; input(1, 1), output(2, 1), gain(3, 1), gain(4, 1)]?;
    let ways = [joined(1, 2), joined(3, 4), joined(4, 3)];
    assert!(rt; is_told(alloc, graph_of(alloc, nodes, &ways)?, "a cycle")?);
    Ok(())
}

/// So many inserts of 2^20 in a row.
fn long_row(alloc: Global, nodes: u32) -> Result<Graph, AllocError>
    ensures { IfOk result Fits }
{
    let largest = Kind::Insert {
        channels: 1,
        samples: 1 << 20,
    };
    in_a_row(alloc, nodes, &largest)
}

#[test]
fn delays_are_counted_over_live_connections(rt: HostRuntime) -> Result<(), Fail> {
    let alloc = rt.alloc();
    let seven = with_idle(long_row(alloc, 7)?, gain(99, 1), 1)?;
    assert!(rt; is_told(alloc, seven, "")?);
    let eight = long_row(alloc, 8)?;
    assert!(rt; is_told(alloc, eight, "latency 8388608 over 9 connections")?);
    Ok(())
}

/// The same of nodes that are not connected.
fn is_told_alone(alloc: Global, nodes: Vec<Node>, text: &str) -> Result<bool, Fail> {
    is_told(alloc, graph_of(alloc, nodes, &[])?, text)
}

#[test]
fn cells_are_counted_over_idle_nodes(rt: HostRuntime) -> Result<(), Fail> {
    let alloc = rt.alloc();
    let alone = vec![in alloc; input(1, 1), output(2, 1), delay(3, 32, 1 << 20)]?;
    assert!(rt; is_told_alone(alloc, alone, "")?);
    let beside = vec![in alloc;
        input(1, 1),
        output(2, 1),
        delay(3, 32, 1 << 20),
        insert(4, 1),
    ]?;
    assert!(rt; is_told_alone(alloc, beside, "33554433 cells")?);
    Ok(())
}

/// So many gains of 16 in a row.
fn loud_row(alloc: Global, nodes: u32) -> Result<Graph, AllocError>
    ensures { IfOk result Fits }
{
    let sixteen = Kind::Gain {
        channels: 1,
        gain: 1 << 20,
    };
    in_a_row(alloc, nodes, &sixteen)
}

/// Three gains of 16 in a row, into another node that leads nowhere.
fn loud_row_into(alloc: Global, node: Node) -> Result<Graph, AllocError>
    ensures { IfOk result Fits }
{
    with_idle(loud_row(alloc, 3)?, node, 5)
}

#[test]
fn bounds_are_told_of_idle_nodes_too(rt: HostRuntime) -> Result<(), Fail> {
    let alloc = rt.alloc();
    assert!(rt; is_told(alloc, loud_row(alloc, 3)?, "")?);
    let four = loud_row(alloc, 4)?;
    assert!(rt; is_told(alloc, four, "node 6 channel 0: bound 140737488355328")?);
    let idle = loud_row_into(alloc, gain(9, 1 << 20))?;
    assert!(rt; is_told(alloc, idle, "node 9 channel 0: bound 140737488355328")?);
    Ok(())
}

/// A filter with one tap, nearly 2^24.
fn great_tap(alloc: Global, uid: u32) -> Result<Node, AllocError> {
    fir(alloc, uid, &[16777215], 0, 0)
}

/// An input into an output and two such filters.
fn two_great_taps(alloc: Global) -> Result<Graph, AllocError>
    ensures { IfOk result Fits }
{
    let nine = great_tap(alloc, 9)?;
    let four = great_tap(alloc, 4)?;
    let nodes = vec![in alloc; input(1, 1), output(2, 1), nine, four]?;
    graph_of(alloc, nodes, &[joined(1, 2), joined(1, 9), joined(1, 4)])
}

#[test]
fn of_two_idle_nodes_the_least_name_is_told(rt: HostRuntime) -> Result<(), Fail> {
    let alloc = rt.alloc();
    let graph = two_great_taps(alloc)?;
    assert!(rt; is_told(alloc, graph, "node 4 channel 0: bound 36028794871480320")?);
    Ok(())
}

#[test]
fn a_bound_beyond_64_bits_is_told_as_the_greatest(rt: HostRuntime) -> Result<(), Fail> {
    let alloc = rt.alloc();
    let graph = loud_row_into(alloc, great_tap(alloc, 9)?)?;
    assert!(rt; is_told(alloc, graph, "node 9 channel 0: bound 18446744073709551615")?);
    Ok(())
}

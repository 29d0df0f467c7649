//! A copy of a graph is equal to it, and a change shows.

use graph_model::{Connection, Graph, Kind, List, Node, Uid};
use std::test::Fail;

fn joined(src: u32, dst: u32) -> Connection {
    Connection {
        src: Uid(src),
        src_channel: 0,
        dst: Uid(dst),
        dst_channel: 0,
    }
}

#[test]
fn a_copy_is_equal_and_a_change_shows(rt: HostRuntime) -> Result<(), Fail> {
    let alloc = rt.alloc();
    let mut graph = Graph {
        nodes: List::new(alloc),
        connections: List::new(alloc),
    };
    let kinds = [
        Kind::Input { channels: 1 },
        Kind::Fir {
            channels: 1,
            taps: List::from_slice(alloc, &[1, 2, 1])?,
            shift: 2,
            latency: 1,
        },
    ];
    let mut uid = 1;
    for kind in kinds {
        graph.nodes.push(Node {
            uid: Uid(uid),
            kind,
        })?;
        uid = 7;
    }
    graph.connections.push(joined(1, 7))?;
    let mut copy = graph.copy(alloc)?;
    assert!(rt; copy == graph);
    assert_eq!(rt;
        copy.node(Uid(7)).map(|node| (node.ins(), node.outs())),
        Some((1, 1))
    );
    assert!(rt; copy.node(Uid(2)).is_none());
    copy.connections.push(joined(7, 1))?;
    assert!(rt; copy != graph);
    Ok(())
}

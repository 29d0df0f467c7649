//! The connections of a generated graph.

ghost use Rattle.std.specs.Prelude.{◌≡◌, ◌==◌, ◌≤◌, ◌<◌, ◌+◌, ◌-◌, ◌++◌, not, IfOk, OnOk};
ghost use Rattle.std.specs.List.{list_any};
ghost use Rattle.graph_gen.specs.Draws.{stepped};
ghost use Rattle.graph_gen.specs.Generated.{connection_from, connections_of, sources, unread, with_endings};

use crate::draws::Draws;
use graph_model::{Connection, Kind, List, Uid};
use std::alloc::{AllocError, Global};

/// The connection from a source channel to channel 0 of a node. Sources 0 and 1 are the channels of node 1, and any
/// other number is channel 0 of the node of the next number.
fn connection_from(source: u32, uid: u32) -> Connection
    requires { source < 4294967295 }
    ensures { result ≡ connection_from source uid }
{
    Connection {
        src: Uid(if source < 2 { 1 } else { source + 1 }),
        src_channel: if source == 1 { 1 } else { 0 },
        dst: Uid(uid),
        dst_channel: 0,
    }
}

/// Draws the sources of a node among the channels of the nodes before it, and connects them.
pub(crate) fn connect(
    draws: &mut Draws,
    kind: &Kind,
    uid: u32,
    connections: &mut List<Connection>,
) -> Result<(), AllocError>
    requires { 3 ≤ uid }
    ensures connections { OnOk result (connections.new ≡ connections.old ++ connections_of kind.now uid draws.old.state) }
    ensures state { OnOk result (draws.new.state ≡ stepped (sources kind.now) draws.old.state) }
{
    let first = draws.draw(uid - 1);
    connections.push(connection_from(first, uid))?;
    if let Kind::Gain { .. } = kind {
        let second = draws.draw(uid - 1);
        if second != first {
            connections.push(connection_from(second, uid))?;
        }
    }
    Ok(())
}

/// Whether a connection leaves the node.
fn is_read(connections: &[Connection], uid: u32) -> bool
    ensures { result ≡ list_any (λ c. c.src.0 == uid) connections.now }
{
    connections.iter().any(|connection| connection.src.0 == uid)
}

/// The nodes from 3 on that no connection leaves.
fn unread(alloc: Global, connections: &[Connection], nodes: u32) -> Result<Vec<u32>, AllocError>
    requires { (3 ≤ nodes) × (nodes ≤ 512) }
    ensures { IfOk result (λ v. v.items ≡ unread connections.now nodes) }
{
    let later = 3..nodes + 1;
    later
        .filter(|uid| !is_read(connections, *uid))
        .collect(alloc)
}

/// Leads each node that no connection leaves to the output node, by turns to its two channels.
pub(crate) fn connect_ends(
    alloc: Global,
    nodes: u32,
    connections: &mut List<Connection>,
) -> Result<(), AllocError>
    requires { (3 ≤ nodes) × (nodes ≤ 512) }
    ensures { OnOk result (connections.new ≡ with_endings connections.old nodes) }
{
    let unread = unread(alloc, connections.as_slice(), nodes)?;
    for uid in &unread {
        connections.push(Connection {
            src: Uid(*uid),
            src_channel: 0,
            dst: Uid(2),
            dst_channel: *uid % 2,
        })?;
    }
    Ok(())
}

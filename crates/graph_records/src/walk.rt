//! The walk over the records of a graph, in the order in which they are read.

ghost use Rattle.std.specs.Prelude.{◌≡◌, ◌≤◌, ◌⊎◌, length, map, option_map, IfOk};
ghost use Rattle.serde_json.specs.Errors.{IsMemory};
ghost use Rattle.serde_json.specs.View.{view};
ghost use Rattle.graph_model.specs.Refusals.{Gives, mapped};
ghost use Rattle.graph_model.specs.Sound.{Fits};
ghost use Rattle.graph_records.specs.Entries.{each_from, record_of};
ghost use Rattle.graph_records.specs.Rows.{connection_of, node_of};
ghost use Rattle.graph_records.specs.Walk.{graph_in, records_of, walk};

use crate::entry::Entry;
use crate::fault::{Part, RecordFault};
use crate::rows::{read_connection, read_node};
use graph_model::{Connection, Graph, List, Member, Node, Refused};
use serde_json::{Error, Value};
use std::alloc::Global;

/// The most nodes of a graph.
const MOST_NODES: usize = 512;

/// The most connections of a graph.
const MOST_CONNECTIONS: usize = 8192;

/// The object that holds a graph's records.
fn records(value: &Value) -> Result<&Value, RecordFault>
    ensures { mapped (λ v. view v.now) result ≡ records_of (view value.now) }
{
    let top = Entry {
        part: Part::Top,
        index: 0,
        value,
    };
    match top.member(Member::Graph) {
        Some(records) if records.is_object() => Ok(records),
        _ => Err(RecordFault::Shape {
            place: top.place(Member::Graph),
        }),
    }
}

/// The nodes of these records.
fn read_nodes(alloc: Global, values: &[Value]) -> Result<List<Node>, Refused<RecordFault>>
    requires { length values.now ≤ 512 }
    ensures { Gives (each_from node_of 0 (map view values.now)) result }
{
    let mut nodes = List::new(alloc);
    for (index, value) in values.iter().enumerate() {
        let entry = Entry {
            part: Part::Filter,
            index: index as u32,
            value,
        };
        let node = read_node(alloc, &entry)?;
        nodes.push(node)?;
    }
    Ok(nodes)
}

/// The connections of these records.
fn read_connections(
    alloc: Global,
    values: &[Value],
) -> Result<List<Connection>, Refused<RecordFault>>
    requires { length values.now ≤ 8192 }
    ensures { Gives (each_from connection_of 0 (map view values.now)) result }
{
    let mut connections = List::new(alloc);
    for (index, value) in values.iter().enumerate() {
        let entry = Entry {
            part: Part::Link,
            index: index as u32,
            value,
        };
        let connection = read_connection(&entry)?;
        connections.push(connection)?;
    }
    Ok(connections)
}

/// The graph of the records. Both lists are taken before any of their entries is read.
fn read_records(alloc: Global, value: &Value) -> Result<Graph, Refused<RecordFault>>
    ensures { Gives (graph_in (view value.now)) result }
{
    let records = Entry {
        part: Part::Top,
        index: 0,
        value,
    };
    let filters = records.list(Member::Filter, MOST_NODES)?;
    let links = match records.member(Member::Connection) {
        Some(_) => records.list(Member::Connection, MOST_CONNECTIONS)?,
        None => &[],
    };
    let nodes = read_nodes(alloc, filters)?;
    let connections = read_connections(alloc, links)?;
    Ok(Graph { nodes, connections })
}

/// Why bytes are no value: they are no JSON text, or there was no memory.
fn refusal(error: &Error) -> Refused<RecordFault>
    ensures { (result ≡ Refused.Memory)
        ⊎ ((result ≡ Refused.Fault RecordFault.Text) × ¬ (IsMemory error.now)) }
{
    if error.is_memory() {
        return Refused::Memory;
    }
    Refused::Fault(RecordFault::Text)
}

/// The graph that the bytes are the records of.
///
/// The bytes are a JSON text (RFC 8259) in UTF-8, nested at most 127 levels deep: an object whose
/// member `FILTERGRAPH` is an object with `FILTER`, an array of at most 512 nodes, and
/// `CONNECTION`, an array of at most 8,192 connections, which may be absent. A node is an object
/// with `uid`, `kind` and the members of its kind. A connection is an object with `srcFilter`,
/// `srcChannel`, `dstFilter` and `dstChannel`. All numbers are whole: written without fraction and
/// exponent, and within 64 bits. All other members are ignored, and of equal names the last one
/// counts. Whether the numbers are in the ranges of a sound graph, and whether the connections are
/// right, is not asked.
///
/// | kind | members, in the order in which they are read |
/// |---|---|
/// | `input`, `output` | `channels` |
/// | `gain` | `channels`, `gain` (i32) |
/// | `mixer` | `ins`, `outs`, `gains` (list of i32) |
/// | `fir` | `channels`, `taps` (list of i32), `shift`, `latency` |
/// | `biquad` | `channels`, `b0`, `b1`, `b2`, `a1`, `a2` (i32), `shift`, `bits` |
/// | `limiter` | `channels`, `threshold` (u64), `lookahead` |
/// | `delay`, `insert` | `channels`, `samples` |
///
/// All others are u32.
///
/// # Errors
///
/// The first fault in this order: the text; `FILTERGRAPH`; `FILTER` and its length; `CONNECTION`
/// and its length; each node; each connection. Of a record: that it is an object, then its members
/// as they stand above. `RecordFault::Shape` where a member is missing or has another form, or a
/// `kind` is none of the table; `RecordFault::Limit` where a whole number is out of its type, or a
/// list too long. In `gains` and `taps` the first bad entry decides, with the list's member as its
/// place. `Refused::Memory` for want of memory alone.
pub fn read_graph(alloc: Global, bytes: &[u8]) -> Result<Graph, Refused<RecordFault>>
    ensures exact { Gives (walk bytes.now) result }
    ensures fits { IfOk result (λ g. Fits g) }
{
    let value = match Value::from_slice(alloc, bytes) {
        Ok(value) => value,
        Err(error) => return Err(refusal(&error)),
    };
    read_records(alloc, records(&value)?)
}

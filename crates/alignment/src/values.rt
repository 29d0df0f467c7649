//! The values of a graph: the output channels that its live connections read.

ghost use Rattle.std.specs.Prelude.{◌≡◌, ◌<◌, ◌≤◌, ◌^◌, length, map, slice_index_or, IfOk, MatchOption};
ghost use Rattle.std.specs.List.{Contains};
ghost use Rattle.std.specs.List.Sorted.{IsSorted};
ghost use Rattle.plan_model.specs.Lives.{values as values_of};
ghost use Rattle.alignment.specs.Links.{links_of};
ghost use Rattle.alignment.specs.Networks.{ArePoints};
ghost use Rattle.alignment.specs.Values.{port, read_at, value_order};

use crate::links::Link;
use connections::Checked;
use graph_model::Connection;
use std::alloc::{AllocError, Global};

/// A value: an output channel that a live connection reads.
#[derive(Clone, Copy, PartialEq, Eq, PartialOrd, Ord)]
pub(crate) struct Value {
    /// The node that bears it.
    pub(crate) uid: u32,
    /// The output channel of the node, from 0.
    pub(crate) channel: u32,
}

/// The value that a connection reads.
pub(crate) fn read_by(connection: &Connection) -> Value
    ensures { result ≡ read_at connection.now }
{
    Value {
        uid: connection.src.0,
        channel: connection.src_channel,
    }
}

/// The values, ascending by node and then by channel.
pub(crate) fn values(
    alloc: Global,
    graph: &Checked,
    points: &[u32],
    links: &[Link],
) -> Result<Vec<Value>, AllocError>
    requires points { ArePoints graph.now points.now }
    requires links { links.now ≡ links_of graph.now points.now }
    ensures { IfOk result (λ v. map port v.items ≡ values_of graph.now) }
{
    let connections = graph.graph().connections.as_slice();
    let mut values = Vec::new(alloc);
    for link in links {
        values.push(read_by(&connections[link.index as usize]))?;
    }
    values.sort_unstable();
    values.dedup();
    Ok(values)
}

/// The place of a value, where it is one of them.
pub(crate) fn place_of(values: &[Value], value: &Value) -> Option<u32>
    requires rising { IsSorted value_order values.now }
    requires few { length values.now ≤ 2 ^ 13 }
    ensures { MatchOption result (Contains values.now value.now → ⊥)
        (λ k. (k < length values.now) × ((d : Value) → slice_index_or values.now k d ≡ value.now)) }
{
    match values.binary_search(value) {
        Ok(place) => Some(place as u32),
        Err(_) => None,
    }
}

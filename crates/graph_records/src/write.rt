//! The records of a graph, as text.

ghost use Rattle.std.specs.Prelude.{◌≡◌, Ok, IfOk, OnOk, map};
ghost use Rattle.std.specs.List.{All};
ghost use Rattle.serde_json.specs.View.{view};
ghost use Rattle.graph_model.specs.Sound.{Fits};
ghost use Rattle.graph_records.specs.Typed.{IsI32, IsTyped, IsTypedConnection, IsTypedKind, IsTypedNode, IsU32};
ghost use Rattle.graph_records.specs.Walk.{walk};
ghost use Rattle.graph_records.specs.Written.{connection_data, data_of, kind_data, list_data, node_data, signed_data, text_of};

use graph_model::{Connection, Graph, Kind, Node};
use serde_json::{Value, json};
use std::alloc::{AllocError, Global};

/// The array of the numbers.
fn numbers_value(alloc: Global, numbers: &[i32]) -> Result<Value, AllocError>
    ensures value { IfOk result (λ v. view v ≡ list_data (map signed_data numbers.now)) }
    ensures typed { OnOk result (All IsI32 numbers.now) }
{
    let mut values = Vec::new(alloc);
    for number in numbers {
        values.push(Value::from(*number))?;
    }
    Ok(Value::Array(values))
}

/// The record of an input.
fn input_value(alloc: Global, uid: u32, channels: u32) -> Result<Value, AllocError>
    ensures { IfOk result (λ v. view v ≡ kind_data uid (Kind.Input channels)) }
{
    json!(in alloc; {"channels": channels, "kind": "input", "uid": uid})
}

/// The record of an output.
fn output_value(alloc: Global, uid: u32, channels: u32) -> Result<Value, AllocError>
    ensures { IfOk result (λ v. view v ≡ kind_data uid (Kind.Output channels)) }
{
    json!(in alloc; {"channels": channels, "kind": "output", "uid": uid})
}

/// The record of a gain.
fn gain_value(alloc: Global, uid: u32, channels: u32, gain: i32) -> Result<Value, AllocError>
    ensures { IfOk result (λ v. view v ≡ kind_data uid (Kind.Gain channels gain)) }
{
    json!(in alloc; {"channels": channels, "gain": gain, "kind": "gain", "uid": uid})
}

/// The record of a mixer.
fn mixer_value(
    alloc: Global,
    uid: u32,
    ins: u32,
    outs: u32,
    gains: &[i32],
) -> Result<Value, AllocError>
    ensures value { IfOk result (λ v. view v ≡ kind_data uid (Kind.Mixer ins outs gains.now)) }
    ensures typed { OnOk result (All IsI32 gains.now) }
{
    let gains = numbers_value(alloc, gains)?;
    json!(in alloc; {"gains": gains, "ins": ins, "kind": "mixer", "outs": outs, "uid": uid})
}

/// The record of a FIR filter.
fn fir_value(
    alloc: Global,
    uid: u32,
    channels: u32,
    taps: &[i32],
    shift: u32,
    latency: u32,
) -> Result<Value, AllocError>
    ensures value { IfOk result
        (λ v. view v ≡ kind_data uid (Kind.Fir channels taps.now shift latency)) }
    ensures typed { OnOk result (All IsI32 taps.now) }
{
    let taps = numbers_value(alloc, taps)?;
    json!(in alloc; {
        "channels": channels,
        "kind": "fir",
        "latency": latency,
        "shift": shift,
        "taps": taps,
        "uid": uid
    })
}

/// The record of a biquad filter: `b0`, `b1`, `b2` weigh the inputs, `a1`, `a2` the outputs.
fn biquad_value(
    alloc: Global,
    uid: u32,
    channels: u32,
    of_inputs: (i32, i32, i32),
    of_outputs: (i32, i32),
    shift: u32,
    bits: u32,
) -> Result<Value, AllocError>
    ensures { IfOk result
        (λ v. view v ≡ kind_data uid (Kind.Biquad channels of_inputs.0 of_inputs.1 of_inputs.2 of_outputs.0 of_outputs.1 shift bits)) }
{
    let (b0, b1, b2) = of_inputs;
    let (a1, a2) = of_outputs;
    json!(in alloc; {
        "a1": a1,
        "a2": a2,
        "b0": b0,
        "b1": b1,
        "b2": b2,
        "bits": bits,
        "channels": channels,
        "kind": "biquad",
        "shift": shift,
        "uid": uid
    })
}

/// The record of a limiter.
fn limiter_value(
    alloc: Global,
    uid: u32,
    channels: u32,
    threshold: u64,
    lookahead: u32,
) -> Result<Value, AllocError>
    ensures { IfOk result
        (λ v. view v ≡ kind_data uid (Kind.Limiter channels threshold lookahead)) }
{
    json!(in alloc; {
        "channels": channels,
        "kind": "limiter",
        "lookahead": lookahead,
        "threshold": threshold,
        "uid": uid
    })
}

/// The record of a delay.
fn delay_value(alloc: Global, uid: u32, channels: u32, samples: u32) -> Result<Value, AllocError>
    ensures { IfOk result (λ v. view v ≡ kind_data uid (Kind.Delay channels samples)) }
{
    json!(in alloc; {"channels": channels, "kind": "delay", "samples": samples, "uid": uid})
}

/// The record of an insert.
fn insert_value(alloc: Global, uid: u32, channels: u32, samples: u32) -> Result<Value, AllocError>
    ensures { IfOk result (λ v. view v ≡ kind_data uid (Kind.Insert channels samples)) }
{
    json!(in alloc; {"channels": channels, "kind": "insert", "samples": samples, "uid": uid})
}

/// The record of a node.
fn node_value(alloc: Global, node: &Node) -> Result<Value, AllocError>
    ensures value { IfOk result (λ v. view v ≡ node_data node.now) }
    ensures typed { OnOk result (IsTypedNode node.now) }
{
    let uid = node.uid.0;
    match &node.kind {
        Kind::Input { channels } => input_value(alloc, uid, *channels),
        Kind::Output { channels } => output_value(alloc, uid, *channels),
        Kind::Gain { channels, gain } => gain_value(alloc, uid, *channels, *gain),
        Kind::Mixer { ins, outs, gains } => mixer_value(alloc, uid, *ins, *outs, gains.as_slice()),
        Kind::Fir {
            channels,
            taps,
            shift,
            latency,
        } => fir_value(alloc, uid, *channels, taps.as_slice(), *shift, *latency),
        Kind::Biquad {
            channels,
            b0,
            b1,
            b2,
            a1,
            a2,
            shift,
            bits,
        } => biquad_value(
            alloc,
            uid,
            *channels,
            (*b0, *b1, *b2),
            (*a1, *a2),
            *shift,
            *bits,
        ),
        Kind::Limiter {
            channels,
            threshold,
            lookahead,
        } => limiter_value(alloc, uid, *channels, *threshold, *lookahead),
        Kind::Delay { channels, samples } => delay_value(alloc, uid, *channels, *samples),
        Kind::Insert { channels, samples } => insert_value(alloc, uid, *channels, *samples),
    }
}

/// The record of a connection.
fn connection_value(alloc: Global, connection: &Connection) -> Result<Value, AllocError>
    ensures value { IfOk result (λ v. view v ≡ connection_data connection.now) }
    ensures typed { OnOk result (IsTypedConnection connection.now) }
{
    json!(in alloc; {
        "dstChannel": connection.dst_channel,
        "dstFilter": connection.dst.0,
        "srcChannel": connection.src_channel,
        "srcFilter": connection.src.0
    })
}

/// The array of the nodes' records.
fn nodes_value(alloc: Global, nodes: &[Node]) -> Result<Value, AllocError>
    ensures value { IfOk result (λ v. view v ≡ list_data (map node_data nodes.now)) }
    ensures typed { OnOk result (All IsTypedNode nodes.now) }
{
    let mut values = Vec::new(alloc);
    for node in nodes {
        values.push(node_value(alloc, node)?)?;
    }
    Ok(Value::Array(values))
}

/// The array of the connections' records.
fn connections_value(alloc: Global, connections: &[Connection]) -> Result<Value, AllocError>
    ensures value { IfOk result (λ v. view v ≡ list_data (map connection_data connections.now)) }
    ensures typed { OnOk result (All IsTypedConnection connections.now) }
{
    let mut values = Vec::new(alloc);
    for connection in connections {
        values.push(connection_value(alloc, connection)?)?;
    }
    Ok(Value::Array(values))
}

/// The object that holds a graph's records.
fn graph_value(alloc: Global, graph: &Graph) -> Result<Value, AllocError>
    ensures value { IfOk result (λ v. view v ≡ data_of graph.now) }
    ensures typed { OnOk result (IsTyped graph.now) }
{
    let connections = connections_value(alloc, graph.connections.as_slice())?;
    let nodes = nodes_value(alloc, graph.nodes.as_slice())?;
    json!(in alloc; {"FILTERGRAPH": {"CONNECTION": connections, "FILTER": nodes}})
}

/// The text of a graph's records: `serde_json`'s text without spaces of an object with
/// `FILTERGRAPH` alone, which has both lists, `CONNECTION` and `FILTER`. Each record has the
/// members that `read_graph` reads of it and no other, their names in the order of their bytes.
/// What is written is read as the same graph.
///
/// # Errors
///
/// `AllocError` for want of memory alone.
pub fn write_graph(alloc: Global, graph: &Graph) -> Result<Vec<u8>, AllocError>
    requires { Fits graph.now }
    ensures text { IfOk result (λ bytes. bytes.items ≡ text_of graph.now) }
    ensures read_back { IfOk result (λ bytes. walk bytes.items ≡ Ok graph.now) }
{
    graph_value(alloc, graph)?.to_vec(alloc)
}

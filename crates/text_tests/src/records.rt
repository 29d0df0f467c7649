//! What no clause says: the bytes of texts, and which texts are read back.

use graph_model::{Connection, Graph, Kind, List, Node, Refused, Uid};
use graph_records::{RecordFault, read_graph, write_graph};
use std::alloc::{AllocError, Global};
use std::test::Fail;

/// The graph or the fault.
fn read(alloc: Global, bytes: &[u8]) -> Result<Result<Graph, RecordFault>, AllocError> {
    match read_graph(alloc, bytes) {
        Ok(graph) => Ok(Ok(graph)),
        Err(Refused::Fault(fault)) => Ok(Err(fault)),
        Err(Refused::Memory) => Err(AllocError),
    }
}

/// The text, and none where the graph is too large.
fn write(alloc: Global, graph: &Graph) -> Result<Option<Vec<u8>>, AllocError> {
    if graph.nodes.len() > 512 || graph.connections.len() > 8192 {
        return Ok(None);
    }
    Ok(Some(write_graph(alloc, graph)?))
}

/// What is wrong with the bytes.
fn fault_of(alloc: Global, bytes: &[u8]) -> Result<String, AllocError> {
    match read_graph(alloc, bytes) {
        Ok(_) => String::from_str(alloc, "nothing"),
        Err(Refused::Fault(fault)) => format!(in alloc; "{fault}"),
        Err(Refused::Memory) => Err(AllocError),
    }
}

fn joined(src: u32, dst: u32) -> Connection {
    Connection {
        src: Uid(src),
        src_channel: 0,
        dst: Uid(dst),
        dst_channel: 0,
    }
}

fn graph_of(
    alloc: Global,
    kinds: Vec<Kind>,
    connections: &[Connection],
) -> Result<Graph, AllocError> {
    let mut nodes = List::new(alloc);
    let mut uid: u32 = 0;
    for kind in kinds {
        uid = uid.wrapping_add(1);
        nodes.push(Node {
            uid: Uid(uid),
            kind,
        })?;
    }
    Ok(Graph {
        nodes,
        connections: List::from_slice(alloc, connections)?,
    })
}

const STRAIGHT: &str =
    r#"{"FILTERGRAPH":{"CONNECTION":[{"dstChannel":0,"dstFilter":2,"srcChannel":0,"srcFilter":1}],"FILTER":[{"channels":1,"kind":"input","uid":1},{"channels":1,"kind":"output","uid":2}]}}"#;

#[test]
fn a_straight_connection_is_written_and_read_back(rt: HostRuntime) -> Result<(), Fail> {
    let alloc = rt.alloc();
    let kinds = vec![in alloc; Kind::Input { channels: 1 }, Kind::Output { channels: 1 }]?;
    let graph = graph_of(alloc, kinds, &[joined(1, 2)])?;
    let bytes = write(alloc, &graph)?.ok_or("too large")?;
    assert!(rt; bytes.as_slice() == STRAIGHT.as_bytes());
    assert!(rt; read(alloc, &bytes)? == Ok(graph));
    Ok(())
}

#[test]
fn every_kind_is_written_and_read_back(rt: HostRuntime) -> Result<(), Fail> {
    let alloc = rt.alloc();
    let kinds = vec![in alloc;
        Kind::Input {
            channels: 4294967295
        },
        Kind::Output { channels: 0 },
        Kind::Gain {
            channels: 1,
            gain: -2147483648
        },
        Kind::Mixer {
            ins: 2,
            outs: 1,
            gains: List::from_slice(alloc, &[65536, -1])?
        },
        Kind::Fir {
            channels: 1,
            taps: List::from_slice(alloc, &[1, 2, 2147483647])?,
            shift: 2,
            latency: 1,
        },
        Kind::Biquad {
            channels: 1,
            b0: 1,
            b1: -2,
            b2: 3,
            a1: -4,
            a2: 5,
            shift: 14,
            bits: 32,
        },
        Kind::Limiter {
            channels: 1,
            threshold: 18446744073709551615,
            lookahead: 8
        },
        Kind::Delay {
            channels: 1,
            samples: 100
        },
        Kind::Insert {
            channels: 1,
            samples: 5
        },
    ]?;
    let graph = graph_of(alloc, kinds, &[])?;
    let bytes = write(alloc, &graph)?.ok_or("too large")?;
    let text =
        r#"{"FILTERGRAPH":{"CONNECTION":[],"FILTER":[{"channels":4294967295,"kind":"input","uid":1},{"channels":0,"kind":"output","uid":2},{"channels":1,"gain":-2147483648,"kind":"gain","uid":3},{"gains":[65536,-1],"ins":2,"kind":"mixer","outs":1,"uid":4},{"channels":1,"kind":"fir","latency":1,"shift":2,"taps":[1,2,2147483647],"uid":5},{"a1":-4,"a2":5,"b0":1,"b1":-2,"b2":3,"bits":32,"channels":1,"kind":"biquad","shift":14,"uid":6},{"channels":1,"kind":"limiter","lookahead":8,"threshold":18446744073709551615,"uid":7},{"channels":1,"kind":"delay","samples":100,"uid":8},{"channels":1,"kind":"insert","samples":5,"uid":9}]}}"#;
    assert!(rt; bytes.as_slice() == text.as_bytes());
    assert!(rt; read(alloc, &bytes)? == Ok(graph));
    Ok(())
}

#[test]
fn other_members_are_ignored_and_the_last_of_equal_names_counts(
    rt: HostRuntime,
) -> Result<(), Fail> {
    let alloc = rt.alloc();
    let text = r#"{"FILTERGRAPH":null,"name":"half","FILTERGRAPH":{"version":[1,2.5,1e-400,null],
        "FILTER":[{"uid":-1,"uid":1,"kind":"reverb","kind":"input","channels":1,"samples":-1.5},
            {"uid":2,"channels":1,"kind":"output","more":{"FILTER":[]}}]},"last":0e999999999999}"#;
    let kinds = vec![in alloc; Kind::Input { channels: 1 }, Kind::Output { channels: 1 }]?;
    let graph = graph_of(alloc, kinds, &[])?;
    assert!(rt; read(alloc, text.as_bytes())? == Ok(graph));
    Ok(())
}

/// What `serde_json` does not read.
const BROKEN: &str = "
{
{}{}
{\"a\":1e400}
{\"a\":\"\\ud800\"}
{\"a\":\"\t\"}
\u{feff}{}";

#[test]
fn what_serde_json_does_not_read_is_no_text(rt: HostRuntime) -> Result<(), Fail> {
    let alloc = rt.alloc();
    for text in BROKEN.lines() {
        assert_eq!(rt;
            fault_of(alloc, text.as_bytes())?.as_str(),
            "no JSON text",
            "{text}"
        );
    }
    assert_eq!(rt;
        fault_of(alloc, b"{\"a\":\"\xff\"}")?.as_str(),
        "no JSON text"
    );
    Ok(())
}

/// An object whose member is ignored, and nests so many arrays.
fn nested(alloc: Global, arrays: usize) -> Result<String, AllocError> {
    let mut text = String::from_str(alloc, "{\"FILTERGRAPH\":{\"FILTER\":[]},\"deep\":")?;
    for _ in 0..arrays {
        text.push_str("[")?;
    }
    for _ in 0..arrays {
        text.push_str("]")?;
    }
    text.push_str("}")?;
    Ok(text)
}

#[test]
fn at_most_127_levels_are_read(rt: HostRuntime) -> Result<(), Fail> {
    let alloc = rt.alloc();
    let deepest = nested(alloc, 126)?;
    assert_eq!(rt; fault_of(alloc, deepest.as_bytes())?.as_str(), "nothing");
    let deeper = nested(alloc, 127)?;
    assert_eq!(rt;
        fault_of(alloc, deeper.as_bytes())?.as_str(),
        "no JSON text"
    );
    Ok(())
}

/// Texts, and what is wrong with each.
const FAULTS: &str = r#"[] > wrong form at top 0 FILTERGRAPH
{"FILTERGRAPH":[]} > wrong form at top 0 FILTERGRAPH
{"FILTERGRAPH":{"CONNECTION":7}} > wrong form at top 0 FILTER
{"FILTERGRAPH":{"FILTER":[7],"CONNECTION":null}} > wrong form at top 0 CONNECTION
{"FILTERGRAPH":{"CONNECTION":[7],"FILTER":[7]}} > wrong form at filter 0 record
{"FILTERGRAPH":{"FILTER":[{"uid":1,"kind":"input","channels":1},{"uid":2,"kind":"reverb"}]}} > wrong form at filter 1 kind
{"FILTERGRAPH":{"FILTER":[{"kind":"reverb","uid":-1}],"CONNECTION":[7]}} > -1 is out of range at filter 0 uid
{"FILTERGRAPH":{"FILTER":[],"CONNECTION":[{"dstChannel":-1,"dstFilter":4294967296,"srcChannel":0,"srcFilter":1}]}} > 4294967296 is out of range at connection 0 dstFilter"#;

#[test]
fn each_fault_has_its_place(rt: HostRuntime) -> Result<(), Fail> {
    let alloc = rt.alloc();
    for case in FAULTS.lines() {
        let (text, fault) = case.split_once(" > ").unwrap_or(("", ""));
        assert_eq!(rt; fault_of(alloc, text.as_bytes())?.as_str(), fault, "{case}");
    }
    Ok(())
}

/// The members of a node beside its uid, and what is wrong first. A number that is not whole has another form.
const MEMBERS: &str =
    r#""kind":"fir","channels":1,"taps":[0,2147483648,null],"shift":-1 > 2147483648 is out of range at filter 0 taps
"kind":"mixer","ins":1,"outs":1,"gains":[null,2147483648] > wrong form at filter 0 gains
"kind":"limiter","channels":1,"threshold":-1,"lookahead":-2 > -1 is out of range at filter 0 threshold
"kind":"biquad","channels":1,"b0":1,"b1":1,"a1":0.5,"a2":1,"shift":1,"bits":16 > wrong form at filter 0 b2
"kind":"delay","samples":1 > wrong form at filter 0 channels
"kind":"gain","channels":1,"gain":-0 > wrong form at filter 0 gain
"kind":"gain","channels":1,"gain":1.0 > wrong form at filter 0 gain
"kind":"gain","channels":1,"gain":1e2 > wrong form at filter 0 gain
"kind":"gain","channels":1,"gain":18446744073709551616 > wrong form at filter 0 gain
"kind":"gain","channels":1,"gain":-9223372036854775809 > wrong form at filter 0 gain
"kind":"gain","channels":1,"gain":"1" > wrong form at filter 0 gain
"kind":"gain","channels":1,"gain":null > wrong form at filter 0 gain
"kind":"gain","channels":1,"gain":9223372036854775808 > 9223372036854775808 is out of range at filter 0 gain
"kind":"gain","channels":1,"gain":18446744073709551615 > 18446744073709551615 is out of range at filter 0 gain
"kind":"gain","channels":1,"gain":-9223372036854775808 > -9223372036854775808 is out of range at filter 0 gain
"kind":"gain","channels":1,"gain":2147483648 > 2147483648 is out of range at filter 0 gain
"kind":"gain","channels":1,"gain":-2147483649 > -2147483649 is out of range at filter 0 gain"#;

#[test]
fn the_first_bad_member_decides(rt: HostRuntime) -> Result<(), Fail> {
    let alloc = rt.alloc();
    for case in MEMBERS.lines() {
        let (members, fault) = case.split_once(" > ").unwrap_or(("", ""));
        let text = format!(in alloc;
            "{{\"FILTERGRAPH\":{{\"FILTER\":[{{\"uid\":1,{members}}}]}}}}"
        )?;
        assert_eq!(rt; fault_of(alloc, text.as_bytes())?.as_str(), fault, "{case}");
    }
    Ok(())
}

/// So many records that are no objects.
fn zeros(alloc: Global, count: usize) -> Result<String, AllocError> {
    let mut text = String::from_str(alloc, "0")?;
    for _ in 1..count {
        text.push_str(",0")?;
    }
    Ok(text)
}

#[test]
fn too_many_records_come_before_their_forms(rt: HostRuntime) -> Result<(), Fail> {
    let alloc = rt.alloc();
    let nodes = zeros(alloc, 512)?;
    let text = format!(in alloc; "{{\"FILTERGRAPH\":{{\"FILTER\":[{nodes}]}}}}")?;
    let fault = fault_of(alloc, text.as_bytes())?;
    assert_eq!(rt; fault.as_str(), "wrong form at filter 0 record");
    let text = format!(in alloc;
        "{{\"FILTERGRAPH\":{{\"FILTER\":[{nodes},0],\"CONNECTION\":7}}}}"
    )?;
    let fault = fault_of(alloc, text.as_bytes())?;
    assert_eq!(rt; fault.as_str(), "513 is out of range at top 0 FILTER");
    let links = zeros(alloc, 8193)?;
    let text = format!(in alloc;
        "{{\"FILTERGRAPH\":{{\"FILTER\":[0],\"CONNECTION\":[{links}]}}}}"
    )?;
    let fault = fault_of(alloc, text.as_bytes())?;
    assert_eq!(rt; fault.as_str(), "8193 is out of range at top 0 CONNECTION");
    Ok(())
}

//! Plans that are certified, and plans that each rule refuses, as texts.

use connections::{Checked, check};
use graph_model::Refused;
use plan_checker::{No, Yes, verdict};
use plan_text::read;
use std::alloc::{AllocError, Global};
use std::test::Fail;
use test_graphs::{fan_out, graph_of, input, joined, output};

/// A plan of an insert of 5 beside a gain that fans out, with `/` for the end of a line.
const FAN_OUT: &str =
    "plan 1/latency 5/path 1 3 2/at 1 0/at 2 5/at 3 0/at 4 5/line 0 0/line 1 0/line 2 5/line 3 0/line 4 0/line 5 0/\
total 5/arc 1 3 2/arc 3 2 2/arc 4 2 2/bound 5/wave 1/wave 3/wave 4/wave 2/home 1 0 0/home 3 0 1/home 4 0 0/channels 2/peak 1/end/";

/// What is told of that plan where one piece of it is another.
const CHANGES: &str = "\
peak 1 > peak 1 > Yes
arc 1 3 2 > arc 0 1 18446744073709551615/arc 1 0 18446744073709551615/arc 1 3 2 > Yes
at 4 5/ >  > At 3
at 1 0 > at 1 1 > Input 1
at 4 5 > at 4 18446744073709551615 > Alignment 3
latency 5 > latency 6 > Latency 5
at 4 5 > at 4 4 > Lines 2
total 5 > total 6 > Total 6
path 1 3 2 > path 1 4 3 > Path 1
path 1 3 2 > path 1 4 2 > Longest 0
arc 1 3 2 > arc 1 2 2 > Arcs 0
arc 1 3 2 > arc 1 3 3 > Need 1
bound 5 > bound 6 > Bound 6
at 4 5/line 0 0/line 1 0/line 2 5/line 3 0/line 4 0/line 5 0/total 5 > \
at 4 0/line 0 0/line 1 0/line 2 0/line 3 5/line 4 5/line 5 5/total 15 > Least 15
wave 4/wave 2 > wave 2/wave 4 > Waves 2
wave 4/wave 2 > wave 4/wave 4 > Waves 3
home 4 0 0 > home 2 0 0 > Homes 2
home 4 0 0 > home 4 0 1 > Channels 2
channels 2 > channels 1 > Channels 1
channels 2 > channels 3 > Peak 1
peak 1 > peak 2 > Peak 2";

/// A plan of an input that is joined to an output; its path is the output node alone.
const JOINED: &str =
    "plan 1/latency 0/path 2/at 1 0/at 2 0/line 0 0/total 0/arc 1 2 1/bound 0/wave 1/wave 2/home 1 0 0/channels 1/peak 0/end/";

/// `Yes`, or the rule that refuses a plan, with its place.
fn told(alloc: Global, verdict: Result<Yes, Refused<No>>) -> Result<String, AllocError> {
    match verdict {
        Ok(Yes) => String::from_str(alloc, "Yes"),
        Err(Refused::Fault(no)) => format!(in alloc; "{:?} {}", no.rule, no.place),
        Err(Refused::Memory) => Err(AllocError),
    }
}

/// What is told of the plan of a text.
fn verdict_on(alloc: Global, graph: &Checked, text: &str) -> Result<String, Fail> {
    let text = text.replace(alloc, "/", "\n")?;
    let plan = read(alloc, text.as_bytes())?;
    Ok(told(alloc, verdict(alloc, graph, &plan))?)
}

#[test]
fn each_rule_names_its_place(rt: HostRuntime) -> Result<(), Fail> {
    let alloc = rt.alloc();
    let graph = check(alloc, fan_out(alloc)?)?;
    for change in CHANGES.lines() {
        let mut parts = change.split(" > ");
        let old = parts.next().unwrap_or("");
        let new = parts.next().unwrap_or("");
        let wanted = parts.next().unwrap_or("");
        let text = FAN_OUT.replace(alloc, old, new)?;
        let told = verdict_on(alloc, &graph, text.as_str())?;
        assert_eq!(rt; told.as_str(), wanted, "{change}");
    }
    Ok(())
}

/// Whatever the compiler would have chosen.
#[test]
fn a_path_of_the_output_node_alone(rt: HostRuntime) -> Result<(), Fail> {
    let alloc = rt.alloc();
    let nodes = vec![in alloc; input(1, 1), output(2, 1)]?;
    let graph = check(alloc, graph_of(alloc, nodes, &[joined(1, 2)])?)?;
    let told = verdict_on(alloc, &graph, JOINED)?;
    assert_eq!(rt; told.as_str(), "Yes");
    Ok(())
}

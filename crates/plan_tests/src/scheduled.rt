//! Worked schedules, whose waves come from outside.

ghost use Rattle.std.specs.Prelude.{IfOk};
ghost use Rattle.graph_model.specs.Sound.{Fits};

use connections::check;
use graph_model::{Graph, List};
use plan_model::{Mode, Wave};
use schedule::schedule;
use std::alloc::{AllocError, Global};
use std::test::Fail;
use test_graphs::{fan_out, gain, graph_of, input, joined, joined_at, mixer, output, with_idle};

/// The uids of the nodes, with a bar after each wave.
fn text(alloc: Global, waves: &List<Wave>) -> Result<String, AllocError> {
    let mut text = String::new(alloc);
    for wave in waves.as_slice() {
        for uid in wave.nodes.as_slice() {
            let number = format!(in alloc; "{} ", uid.0)?;
            text.push_str(&number)?;
        }
        text.push_str("| ")?;
    }
    Ok(text)
}

/// Whether a sound graph has these schedules.
fn has(alloc: Global, graph: Graph, one_by_one: &str, by_waves: &str) -> Result<bool, Fail>
    requires { Fits graph }
{
    let checked = check(alloc, graph)?;
    let ones = text(alloc, &schedule(alloc, &checked, Mode::OneByOne)?)?;
    let waves = text(alloc, &schedule(alloc, &checked, Mode::Waves)?)?;
    Ok(ones.as_str() == one_by_one && waves.as_str() == by_waves)
}

/// Three gains into a mixer, listed in no order of their uids.
fn three_gains(alloc: Global) -> Result<Graph, AllocError>
    ensures { IfOk result Fits }
{
    let nodes = vec![in alloc;
        gain(5, 1),
        mixer(alloc, 6, 3, 1, &[1, 1, 1])?,
        output(2, 1),
        gain(3, 1),
        input(1, 1),
        gain(4, 1),
    ]?;
    let ways = [
        joined(1, 5),
        joined(1, 3),
        joined(1, 4),
        joined(3, 6),
        joined_at(4, 0, 6, 1),
        joined_at(5, 0, 6, 2),
        joined(6, 2),
    ];
    graph_of(alloc, nodes, &ways)
}

#[test]
fn the_live_nodes_one_by_one_and_by_waves(rt: HostRuntime) -> Result<(), Fail> {
    let alloc = rt.alloc();
    let graph = fan_out(alloc)?;
    assert!(rt; has(alloc, graph, "1 | 3 | 4 | 2 | ", "1 | 3 4 | 2 | ")?);
    let graph = three_gains(alloc)?;
    assert!(rt;
        has(
            alloc,
            graph,
            "1 | 3 | 4 | 5 | 6 | 2 | ",
            "1 | 3 4 5 | 6 | 2 | "
        )?
    );
    Ok(())
}

/// A node waits for the longest path into it, whatever its uid.
#[test]
fn a_node_waits_for_its_last_source(rt: HostRuntime) -> Result<(), Fail> {
    let alloc = rt.alloc();
    let nodes = vec![in alloc; input(1, 1), output(2, 1), gain(3, 1), gain(7, 1)]?;
    let ways = [joined(1, 3), joined(1, 7), joined(7, 3), joined(3, 2)];
    let graph = graph_of(alloc, nodes, &ways)?;
    assert!(rt; has(alloc, graph, "1 | 7 | 3 | 2 | ", "1 | 7 | 3 | 2 | ")?);
    Ok(())
}

/// Idle nodes stand in no wave, also where they are deeper than the output node, or where they are all but it.
#[test]
fn idle_nodes_are_left_out(rt: HostRuntime) -> Result<(), Fail> {
    let alloc = rt.alloc();
    let graph = with_idle(with_idle(fan_out(alloc)?, gain(8, 1), 3)?, gain(9, 1), 8)?;
    assert!(rt; has(alloc, graph, "1 | 3 | 4 | 2 | ", "1 | 3 4 | 2 | ")?);
    let apart = graph_of(alloc, vec![in alloc; input(1, 1), output(2, 1)]?, &[])?;
    assert!(rt; has(alloc, apart, "2 | ", "2 | ")?);
    Ok(())
}

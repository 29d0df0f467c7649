//! Worked graphs, whose plans come from outside, and a large one.

ghost use Rattle.std.specs.Prelude.{IfOk};
ghost use Rattle.graph_model.specs.Sound.{Fits};

use buffer_plan::are_lives;
use connections::{Checked, check};
use graph_gen::graph_of as generated;
use graph_model::{Graph, List, Uid};
use lifetimes::{lives, needs};
use plan_compiler::compile;
use plan_model::{Home, Life, Mode, Plan};
use schedule::schedule;
use std::alloc::{AllocError, Global};
use std::test::Fail;
use test_graphs::{fan_out, gain, graph_of, input, joined, joined_at, mixer, output};

/// The plan of a graph that has to be sound.
fn plan(alloc: Global, graph: Graph, mode: Mode) -> Result<Plan, Fail>
    requires { Fits graph }
{
    let checked = check(alloc, graph)?;
    Ok(compile(alloc, &checked, mode)?)
}

/// Latency, total, channels and peak of a plan.
fn figures_in(plan: &Plan) -> (u64, u64, u32, u64) {
    (plan.latency, plan.total, plan.channels, plan.peak)
}

/// The same of a graph's plan.
fn figures(alloc: Global, graph: Graph, mode: Mode) -> Result<(u64, u64, u32, u64), Fail>
    requires { Fits graph }
{
    let plan = plan(alloc, graph, mode)?;
    Ok(figures_in(&plan))
}

/// What each of these waves needs, where these are lives in them.
fn needs_in(alloc: Global, lives: &List<Life>, waves: usize) -> Result<List<u32>, AllocError> {
    if waves > 512 || lives.len() > 16384 || !are_lives(lives, waves as u32) {
        return Ok(List::new(alloc));
    }
    needs(alloc, lives, waves as u32)
}

/// What each wave of a schedule needs.
fn needs_by(alloc: Global, checked: &Checked, mode: Mode) -> Result<List<u32>, AllocError> {
    let waves = schedule(alloc, checked, mode)?;
    needs_in(alloc, &lives(alloc, checked, &waves)?, waves.len())
}

/// What each wave of a graph's schedule needs.
fn needs_of(alloc: Global, graph: Graph, mode: Mode) -> Result<List<u32>, Fail>
    requires { Fits graph }
{
    let checked = check(alloc, graph)?;
    Ok(needs_by(alloc, &checked, mode)?)
}

/// Three gains into a mixer.
fn three_gains(alloc: Global) -> Result<Graph, AllocError>
    ensures { IfOk result Fits }
{
    let nodes = vec![in alloc;
        input(1, 1),
        output(2, 1),
        gain(3, 1),
        gain(4, 1),
        gain(5, 1),
        mixer(alloc, 6, 3, 1, &[1, 1, 1])?,
    ]?;
    let ways = [
        joined(1, 3),
        joined(1, 4),
        joined(1, 5),
        joined(3, 6),
        joined_at(4, 0, 6, 1),
        joined_at(5, 0, 6, 2),
        joined(6, 2),
    ];
    graph_of(alloc, nodes, &ways)
}

/// A mixer that swaps two channels, which it can do in place.
fn swap(alloc: Global) -> Result<Graph, AllocError>
    ensures { IfOk result Fits }
{
    let nodes = vec![in alloc;
        input(1, 2),
        output(2, 2),
        mixer(alloc, 3, 2, 2, &[0, 65536, 65536, 0])?,
    ]?;
    let ways = [
        joined(1, 3),
        joined_at(1, 1, 3, 1),
        joined(3, 2),
        joined_at(3, 1, 2, 1),
    ];
    graph_of(alloc, nodes, &ways)
}

#[test]
fn buffers_by_the_fullest_wave(rt: HostRuntime) -> Result<(), Fail> {
    let alloc = rt.alloc();
    let (ones, waves) = (Mode::OneByOne, Mode::Waves);
    assert_eq!(rt; figures(alloc, fan_out(alloc)?, ones)?, (5, 5, 2, 1));
    assert_eq!(rt; figures(alloc, fan_out(alloc)?, waves)?, (5, 5, 3, 1));
    assert_eq!(rt; figures(alloc, three_gains(alloc)?, ones)?, (0, 0, 3, 2));
    assert_eq!(rt; figures(alloc, three_gains(alloc)?, waves)?, (0, 0, 4, 1));
    assert_eq!(rt; figures(alloc, swap(alloc)?, ones)?, (0, 0, 2, 0));
    Ok(())
}

#[test]
fn needs_wave_by_wave(rt: HostRuntime) -> Result<(), Fail> {
    let alloc = rt.alloc();
    let (ones, waves) = (Mode::OneByOne, Mode::Waves);
    let fan = needs_of(alloc, fan_out(alloc)?, ones)?;
    assert_eq!(rt; fan.as_slice(), [1, 2, 2, 2].as_slice());
    let gains = needs_of(alloc, three_gains(alloc)?, ones)?;
    assert_eq!(rt; gains.as_slice(), [1, 2, 3, 3, 3, 1].as_slice());
    let gains = needs_of(alloc, three_gains(alloc)?, waves)?;
    assert_eq!(rt; gains.as_slice(), [1, 4, 3, 1].as_slice());
    Ok(())
}

#[test]
fn the_parts_of_a_plan(rt: HostRuntime) -> Result<(), Fail> {
    let alloc = rt.alloc();
    let plan = plan(alloc, fan_out(alloc)?, Mode::OneByOne)?;
    assert_eq!(rt; plan.path.as_slice(), [Uid(1), Uid(3), Uid(2)].as_slice());
    assert_eq!(rt; plan.lines.len(), 6);
    assert_eq!(rt; plan.waves.len(), 4);
    let homes = [(1, 0), (3, 1), (4, 0)].map(|(uid, buffer)| Home {
        uid: Uid(uid),
        channel: 0,
        buffer,
    });
    assert_eq!(rt; plan.homes.as_slice(), homes.as_slice());
    assert_eq!(rt; plan.bound, 5);
    Ok(())
}

#[test]
fn without_connections_there_is_one_wave_and_no_buffer(rt: HostRuntime) -> Result<(), Fail> {
    let alloc = rt.alloc();
    let nodes = vec![in alloc; input(1, 1), output(2, 1)]?;
    let plan = plan(alloc, graph_of(alloc, nodes, &[])?, Mode::Waves)?;
    assert_eq!(rt; plan.path.as_slice(), [Uid(2)].as_slice());
    assert_eq!(rt; plan.waves.len(), 1);
    assert_eq!(rt; plan.homes.len(), 0);
    assert_eq!(rt; (plan.channels, plan.peak, plan.arcs.len()), (0, 0, 0));
    Ok(())
}

/// The mode changes the waves and what follows from them, and nothing else.
#[test]
fn a_large_graph_in_both_modes(rt: HostRuntime) -> Result<(), Fail> {
    let alloc = rt.alloc();
    let ones = plan(alloc, generated(alloc, 1, 512)?, Mode::OneByOne)?;
    let waves = plan(alloc, generated(alloc, 1, 512)?, Mode::Waves)?;
    assert_eq!(rt; (ones.latency, waves.latency), (133, 133));
    assert_eq!(rt; ones.at, waves.at);
    assert_eq!(rt; ones.lines, waves.lines);
    assert_eq!(rt; ones.waves.len(), ones.at.len());
    assert!(rt; waves.waves.len() < ones.waves.len());
    assert_eq!(rt; ones.homes.len(), waves.homes.len());
    assert!(rt; ones.channels < waves.channels);
    Ok(())
}

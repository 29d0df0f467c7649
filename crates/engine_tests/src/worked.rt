//! Worked graphs.

ghost use Rattle.std.specs.Prelude.{IfOk};
ghost use Rattle.graph_model.specs.Sound.{Fits};

use crate::comparing::{agrees, heard};
use graph_model::{Graph, Kind};
use plan_model::Mode;
use std::alloc::{AllocError, Global};
use std::test::Fail;
use test_graphs::{
    fan_out, gain, graph_of, in_a_row, input, joined, joined_at, mixer, output, with_idle,
};

/// The lengths of blocks; 0 stands for lengths that change.
const LENGTHS: [usize; 7] = [1, 2, 7, 64, 512, 8192, 0];

/// A mixer that swaps two channels, which it does in place.
fn swap(alloc: Global) -> Result<Graph, AllocError>
    ensures { IfOk result Fits }
{
    let nodes = vec![in alloc;
        input(1, 2),
        output(2, 2),
        mixer(alloc, 3, 2, 2, &[0, 65536, 65536, 0])?,
    ]?;
    let ways = [
        joined(1, 3),
        joined_at(1, 1, 3, 1),
        joined(3, 2),
        joined_at(3, 1, 2, 1),
    ];
    graph_of(alloc, nodes, &ways)
}

/// Three gains into a mixer.
fn three_gains(alloc: Global) -> Result<Graph, AllocError>
    ensures { IfOk result Fits }
{
    let nodes = vec![in alloc;
        input(1, 1),
        output(2, 1),
        gain(3, 65536),
        gain(4, 131072),
        gain(5, -32768),
        mixer(alloc, 6, 3, 1, &[65536, 65536, 65536])?,
    ]?;
    let ways = [
        joined(1, 3),
        joined(1, 4),
        joined(1, 5),
        joined(3, 6),
        joined_at(4, 0, 6, 1),
        joined_at(5, 0, 6, 2),
        joined(6, 2),
    ];
    graph_of(alloc, nodes, &ways)
}

#[test]
fn a_delay_before_a_gain_that_fans_out(rt: HostRuntime) -> Result<(), Fail> {
    let alloc = rt.alloc();
    agrees(&rt, alloc, fan_out(alloc)?, 600, &LENGTHS)
}

#[test]
fn a_node_that_nobody_hears(rt: HostRuntime) -> Result<(), Fail> {
    let alloc = rt.alloc();
    let graph = with_idle(fan_out(alloc)?, gain(5, 65536), 4)?;
    agrees(&rt, alloc, graph, 600, &LENGTHS)
}

#[test]
fn channels_swapped_in_place(rt: HostRuntime) -> Result<(), Fail> {
    let alloc = rt.alloc();
    agrees(&rt, alloc, swap(alloc)?, 600, &LENGTHS)
}

#[test]
fn gains_beside_each_other(rt: HostRuntime) -> Result<(), Fail> {
    let alloc = rt.alloc();
    agrees(&rt, alloc, three_gains(alloc)?, 600, &LENGTHS)
}

#[test]
fn limiters_in_a_row(rt: HostRuntime) -> Result<(), Fail> {
    let alloc = rt.alloc();
    let limiter = Kind::Limiter {
        channels: 1,
        threshold: 1 << 29,
        lookahead: 70,
    };
    agrees(&rt, alloc, in_a_row(alloc, 3, &limiter)?, 600, &LENGTHS)
}

#[test]
fn a_pair_comes_out_swapped(rt: HostRuntime) -> Result<(), Fail> {
    let alloc = rt.alloc();
    let heard = heard(&rt, alloc, swap(alloc)?, Mode::OneByOne, &[1], &[1, 2])?;
    assert_eq!(rt; heard.as_slice(), [2, 1].as_slice());
    Ok(())
}

/// Each sample once, twice, and less its half.
#[test]
fn three_frames_by_ones(rt: HostRuntime) -> Result<(), Fail> {
    let alloc = rt.alloc();
    let graph = three_gains(alloc)?;
    let heard = heard(&rt, alloc, graph, Mode::Waves, &[1, 1, 1], &[2, 4, -6])?;
    assert_eq!(rt; heard.as_slice(), [5, 10, -15].as_slice());
    Ok(())
}

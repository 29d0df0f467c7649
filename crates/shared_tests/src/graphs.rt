//! Worked graphs.

ghost use Rattle.std.specs.Prelude.{IfOk};
ghost use Rattle.graph_model.specs.Sound.{Fits};

use graph_model::{Graph, Kind, List};
use std::alloc::{AllocError, Global};
use test_graphs::{gain, graph_of, input, insert, joined, joined_at, mixer, node, output};

/// Three gains beside an insert of 5, all of one channel.
pub fn gains_beside_an_insert(alloc: Global) -> Result<Graph, AllocError>
    ensures { IfOk result Fits }
{
    let nodes = vec![in alloc;
        input(1, 1),
        output(2, 1),
        gain(3, 65536),
        gain(4, 65536),
        gain(5, 65536),
        insert(6, 5),
    ]?;
    let ways = [
        joined(1, 3),
        joined(1, 4),
        joined(1, 5),
        joined(1, 6),
        joined(3, 2),
        joined(4, 2),
        joined(5, 2),
        joined(6, 2),
    ];
    graph_of(alloc, nodes, &ways)
}

/// A mixer of a stereo input and a gain into three channels, beside an insert of 5.
pub fn mixer_before_a_gain(alloc: Global) -> Result<Graph, AllocError>
    ensures { IfOk result Fits }
{
    let nodes = vec![in alloc;
        input(1, 2),
        output(2, 3),
        mixer(alloc, 3, 2, 1, &[65536, 65536])?,
        gain(4, 65536),
        insert(5, 5),
    ]?;
    let ways = [
        joined(1, 3),
        joined_at(1, 1, 3, 1),
        joined(3, 4),
        joined(4, 2),
        joined_at(4, 0, 2, 1),
        joined_at(4, 0, 2, 2),
        joined(1, 5),
        joined(5, 2),
    ];
    graph_of(alloc, nodes, &ways)
}

/// A filter of linear phase with 2,047 taps, in stereo.
fn filter(alloc: Global) -> Result<Kind, AllocError> {
    let mut taps = List::new(alloc);
    for _ in 0..2047 {
        taps.push(2048)?;
    }
    Ok(Kind::Fir {
        channels: 2,
        taps,
        shift: 22,
        latency: 1023,
    })
}

/// A filter beside a biquad, a mixer of both and a limiter, in stereo.
pub fn usual_job(alloc: Global) -> Result<Graph, AllocError>
    ensures { IfOk result Fits }
{
    let biquad = Kind::Biquad {
        channels: 2,
        b0: 4096,
        b1: 8192,
        b2: 4096,
        a1: 0,
        a2: 2048,
        shift: 14,
        bits: 32,
    };
    let limiter = Kind::Limiter {
        channels: 2,
        threshold: 1 << 30,
        lookahead: 240,
    };
    let nodes = vec![in alloc;
        input(1, 2),
        output(2, 2),
        node(3, filter(alloc)?),
        node(4, biquad),
        mixer(alloc, 5, 4, 2, &[32768, 0, 32768, 0, 0, 32768, 0, 32768])?,
        node(6, limiter),
    ]?;
    let mut ways = Vec::new(alloc);
    for channel in 0..2 {
        ways.push(joined_at(1, channel, 3, channel))?;
        ways.push(joined_at(1, channel, 4, channel))?;
        ways.push(joined_at(3, channel, 5, channel))?;
        ways.push(joined_at(4, channel, 5, 2 + channel))?;
        ways.push(joined_at(5, channel, 6, channel))?;
        ways.push(joined_at(6, channel, 2, channel))?;
    }
    graph_of(alloc, nodes, &ways)
}

/// An insert of 5 beside two connections of the input to the output.
pub fn straight_twice(alloc: Global) -> Result<Graph, AllocError>
    ensures { IfOk result Fits }
{
    let nodes = vec![in alloc; input(1, 1), output(2, 3), insert(3, 5)]?;
    let ways = [
        joined(1, 3),
        joined(3, 2),
        joined_at(1, 0, 2, 1),
        joined_at(1, 0, 2, 2),
    ];
    graph_of(alloc, nodes, &ways)
}

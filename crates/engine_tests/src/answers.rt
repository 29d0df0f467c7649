//! Worked examples, whose values come from outside.

ghost use Rattle.std.specs.Prelude.{◌≡◌, ◌^◌, ◌≤◌, IfOk, length, map};
ghost use Rattle.graph_model.specs.Bounds.{AreUpTo};
ghost use Rattle.graph_model.specs.Graphs.{output_name};
ghost use Rattle.graph_model.specs.Sound.{Fits};
ghost use Rattle.plan_model.specs.Alignments.{IsAlignment, position_in};
ghost use Rattle.plan_model.specs.Rules.{AreLiveNodes};

use connections::check;
use graph_model::{Graph, Kind, List, Uid};
use plan_model::At;
use renderer::{answer, answer_at};
use std::alloc::{AllocError, Global};
use std::process::Abort;
use std::test::Fail;
use test_graphs::{graph_of, input, joined, joined_at, node, output};

/// Samples of 16 bits times 65536.
fn scaled_up(alloc: Global, samples: &[i16]) -> Result<List<i64>, AllocError>
    ensures count { IfOk result (λ v. length v ≡ length samples.now) }
    ensures small { IfOk result (AreUpTo (2 ^ 31)) }
{
    let mut values = List::new(alloc);
    for sample in samples {
        values.push(*sample as i64 * 65536)?;
    }
    Ok(values)
}

/// The answer of a sound graph to whole frames.
fn rendered(
    rt: &impl Abort,
    alloc: Global,
    graph: Graph,
    samples: &[i16],
) -> Result<List<i64>, Fail>
    requires fits { Fits graph }
{
    let input = scaled_up(alloc, samples)?;
    let checked = check(alloc, graph)?;
    let left = input.len() % checked.input_channels() as usize;
    assert_eq!(rt; left, 0);
    Ok(answer(alloc, &checked, input.as_slice())?)
}

/// A gain of one channel, in units of 2^-16.
fn gain(gain: i32) -> Kind {
    Kind::Gain { channels: 1, gain }
}

#[test]
fn answers_of_small_graphs(rt: HostRuntime) -> Result<(), Fail> {
    let alloc = rt.alloc();
    let past = [joined(1, 2)];
    let through = [joined(3, 2), joined(1, 3)];
    let beside = [joined(1, 3), joined(3, 2), joined(1, 2)];
    let nowhere = [joined(1, 3), joined(1, 2)];
    let both = [joined(1, 2), joined_at(1, 1, 2, 0)];
    let crossed = [joined_at(1, 0, 2, 1), joined_at(1, 1, 2, 0)];
    let insert = Kind::Insert {
        channels: 1,
        samples: 5,
    };
    let fir = Kind::Fir {
        channels: 1,
        taps: List::from_slice(alloc, &[1, 2, 1])?,
        shift: 0,
        latency: 1,
    };
    let limiter = Kind::Limiter {
        channels: 1,
        threshold: 6553600,
        lookahead: 1,
    };
    // input and output channels, the node between, the connections, the samples in and out
    let cases: [(u32, u32, Kind, &[_], &[i16], &[i64]); 10] = [
        (
            1,
            1,
            gain(0),
            &past,
            &[-32768, 32767],
            &[-2147483648, 2147418112],
        ),
        (
            1,
            1,
            gain(32768),
            &through,
            &[100, -3, 5],
            &[3276800, -98304, 163840],
        ),
        (2, 1, gain(0), &both, &[1, 2, -3, 4], &[196608, 65536]),
        (
            1,
            1,
            gain(131072),
            &through,
            &[32767, -32768],
            &[4294836224, -4294967296],
        ),
        (
            2,
            3,
            gain(0),
            &crossed,
            &[1, 2, -3, 4],
            &[131072, 65536, 0, 262144, -196608, 0],
        ),
        (2, 3, gain(0), &crossed, &[], &[]),
        (
            1,
            1,
            insert,
            &beside,
            &[1000, 0, 0, 0, 0, 0],
            &[0, 0, 0, 0, 0, 131072000],
        ),
        (1, 1, fir, &through, &[4, 0], &[262144, 524288]),
        (1, 1, limiter, &through, &[200, 50], &[0, 6553600]),
        (
            1,
            1,
            gain(131072),
            &nowhere,
            &[100, -3],
            &[6553600, -196608],
        ),
    ];
    for (ins, outs, kind, ways, samples, wanted) in cases {
        let nodes = vec![in alloc; node(3, kind), output(2, outs), input(1, ins)]?;
        let graph = graph_of(alloc, nodes, ways)?;
        let answer = rendered(&rt, alloc, graph, samples)?;
        assert_eq!(rt; answer.as_slice(), wanted);
    }
    Ok(())
}

fn stands(uid: u32, at: u64) -> At
    ensures { result ≡ record { uid = record { 0 = uid }; at = at } }
{
    At { uid: Uid(uid), at }
}

/// The graph that fans out, with an alignment that has the output node at `late` and the others as early as they can
/// be.
fn fan_out(alloc: Global, late: u64) -> Result<(Graph, List<At>), AllocError>
    requires after { 5 ≤ late }
    requires near { late ≤ 2 ^ 26 }
    ensures fits { IfOk result (λ r. Fits r.0) }
    ensures nodes { IfOk result (λ r. AreLiveNodes r.0 (map (λ a. a.uid.0) r.1)) }
    ensures alignment { IfOk result (λ r. IsAlignment r.0 (position_in r.1)) }
    ensures output { IfOk result (λ r. position_in r.1 (output_name r.0) ≤ 2 ^ 26) }
{
    let graph = test_graphs::fan_out(alloc)?;
    let at = [stands(1, 0), stands(2, late), stands(3, 0), stands(4, 0)];
    let at = List::from_slice(alloc, &at)?;
    Ok((graph, at))
}

/// Its answer at that alignment.
fn rendered_at(
    rt: &impl Abort,
    alloc: Global,
    late: u64,
    samples: &[i16],
) -> Result<List<i64>, Fail>
    requires after { 5 ≤ late }
    requires near { late ≤ 2 ^ 26 }
{
    let (graph, at) = fan_out(alloc, late)?;
    let input = scaled_up(alloc, samples)?;
    let checked = check(alloc, graph)?;
    let left = input.len() % checked.input_channels() as usize;
    assert_eq!(rt; left, 0);
    Ok(answer_at(alloc, &checked, &at, input.as_slice())?)
}

#[test]
fn a_later_output_gives_the_same_later(rt: HostRuntime) -> Result<(), Fail> {
    let wanted = [
        0, 0, 0, 0, 0, 0, 0, 0, 0, 0, 0, 0, 0, 0, 0, 0, 0, 0, 131072000, 65536000, 65536000,
    ];
    let best = rendered_at(&rt, rt.alloc(), 5, &[1000, 0, 0, 0, 0, 0])?;
    assert_eq!(rt; best.as_slice(), &wanted[3..]);
    let later = rendered_at(&rt, rt.alloc(), 6, &[1000, 0, 0, 0, 0, 0, 0])?;
    assert_eq!(rt; later.as_slice(), wanted.as_slice());
    Ok(())
}

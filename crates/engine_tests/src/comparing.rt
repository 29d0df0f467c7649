//! Engines beside the definition.

ghost use Rattle.std.specs.Prelude.{◌^◌};
ghost use Rattle.graph_model.specs.Bounds.{AreUpTo};
ghost use Rattle.graph_model.specs.Sound.{Fits};
ghost use Rattle.plan_model.specs.Certified.{IsCertified};

use crate::blocks::{noise, rendered, widened};
use connections::{Checked, check};
use graph_model::{Graph, List};
use plan_compiler::compile;
use plan_model::{Mode, Plan};
use renderer::answer;
use std::alloc::{AllocError, Global};
use std::process::Abort;
use std::test::Fail;
use std::thread::Threads;

/// The lengths of the blocks in a mixed cutting.
const MIXED: [usize; 6] = [3, 64, 1, 65, 128, 200];

/// The cutting into blocks of one length, as far as so many frames go; of length 0 stands for lengths that change.
fn cutting(alloc: Global, length: usize, frames: usize) -> Result<Vec<usize>, AllocError> {
    let mut cuts = Vec::new(alloc);
    let mut frame: usize = 0;
    for turn in 0..frames {
        if frame >= frames {
            break;
        }
        let cut = if length > 0 {
            length
        } else {
            MIXED[turn % MIXED.len()]
        };
        cuts.push(cut)?;
        frame = frame.saturating_add(cut);
    }
    Ok(cuts)
}

/// The answer to whole frames.
fn wanted(
    rt: &impl Abort,
    alloc: Global,
    checked: &Checked,
    samples: &[i64],
) -> Result<List<i64>, AllocError>
    requires { AreUpTo (2 ^ 31) samples.now }
{
    let left = samples.len() % checked.input_channels() as usize;
    assert_eq!(rt; left, 0);
    answer(alloc, checked, samples)
}

/// A new engine gives what is wanted, in blocks of this length.
fn compare<R: Abort + Threads + Sync>(
    rt: &R,
    alloc: Global,
    checked: &Checked,
    plan: &Plan,
    length: usize,
    samples: &[i64],
    wanted: &[i64],
) -> Result<(), AllocError>
    requires certified { IsCertified checked.now plan.now }
    requires small { AreUpTo (2 ^ 31) samples.now }
{
    let cuts = cutting(alloc, length, samples.len())?;
    let heard = rendered(rt, alloc, checked, plan, cuts.as_slice(), samples)?;
    assert_eq!(rt; heard.as_slice(), wanted);
    Ok(())
}

/// And so it does in blocks of each of these lengths.
fn compare_all<R: Abort + Threads + Sync>(
    rt: &R,
    alloc: Global,
    checked: &Checked,
    plan: &Plan,
    lengths: &[usize],
    samples: &[i64],
    wanted: &[i64],
) -> Result<(), AllocError>
    requires certified { IsCertified checked.now plan.now }
    requires small { AreUpTo (2 ^ 31) samples.now }
{
    for length in lengths {
        compare(rt, alloc, checked, plan, *length, samples, wanted)?;
    }
    Ok(())
}

/// And so it does by the schedule of a mode.
fn compare_by<R: Abort + Threads + Sync>(
    rt: &R,
    alloc: Global,
    checked: &Checked,
    mode: Mode,
    lengths: &[usize],
    samples: &[i64],
    wanted: &[i64],
) -> Result<(), AllocError>
    requires { AreUpTo (2 ^ 31) samples.now }
{
    let plan = compile(alloc, checked, mode)?;
    compare_all(rt, alloc, checked, &plan, lengths, samples, wanted)
}

/// An engine gives the answer, in blocks of each of these lengths, by both schedules.
fn compare_both<R: Abort + Threads + Sync>(
    rt: &R,
    alloc: Global,
    checked: &Checked,
    lengths: &[usize],
    samples: &[i64],
) -> Result<(), AllocError>
    requires { AreUpTo (2 ^ 31) samples.now }
{
    let wanted = wanted(rt, alloc, checked, samples)?;
    let wanted = wanted.as_slice();
    compare_by(rt, alloc, checked, Mode::OneByOne, lengths, samples, wanted)?;
    compare_by(rt, alloc, checked, Mode::Waves, lengths, samples, wanted)
}

/// A graph's engine gives the answer to so many frames of noise, in blocks of each of these lengths, by both schedules.
pub fn agrees<R: Abort + Threads + Sync>(
    rt: &R,
    alloc: Global,
    graph: Graph,
    frames: usize,
    lengths: &[usize],
) -> Result<(), Fail>
    requires { Fits graph }
{
    let checked = check(alloc, graph)?;
    let count = frames.saturating_mul(checked.input_channels() as usize);
    let samples = noise(alloc, count)?;
    compare_both(rt, alloc, &checked, lengths, samples.as_slice())?;
    Ok(())
}

/// What an engine gives of these samples by the schedule of a mode.
fn heard_by<R: Threads + Sync>(
    rt: &R,
    alloc: Global,
    checked: &Checked,
    mode: Mode,
    cuts: &[usize],
    samples: &[i16],
) -> Result<Vec<i64>, AllocError> {
    let plan = compile(alloc, checked, mode)?;
    let samples = widened(alloc, samples)?;
    rendered(rt, alloc, checked, &plan, cuts, samples.as_slice())
}

/// What a graph's engine gives of these samples in blocks of these lengths.
pub fn heard<R: Threads + Sync>(
    rt: &R,
    alloc: Global,
    graph: Graph,
    mode: Mode,
    cuts: &[usize],
    samples: &[i16],
) -> Result<Vec<i64>, Fail>
    requires { Fits graph }
{
    let checked = check(alloc, graph)?;
    Ok(heard_by(rt, alloc, &checked, mode, cuts, samples)?)
}

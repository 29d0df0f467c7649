//! Noise through engines, block by block.

ghost use Rattle.std.specs.Prelude.{◌≡◌, ◌*◌, ◌^◌, ◌<◌, ◌≤◌, pos, IfOk, length, replicate};
ghost use Rattle.graph_model.specs.Bounds.{AreUpTo};
ghost use Rattle.graph_model.specs.Graphs.{in_channels, out_channels};
ghost use Rattle.plan_model.specs.Certified.{IsCertified};
ghost use Rattle.engine_model.specs.Engines.{IsSame, ins, outs};

use connections::Checked;
use engine::Engine;
use fork_join::{Gate, Open};
use plan_model::Plan;
use std::alloc::{AllocError, Global};
use std::thread::Threads;

/// So many samples of 16 bits times 65536, as noise.
pub fn noise(alloc: Global, count: usize) -> Result<Vec<i64>, AllocError>
    ensures count { IfOk result (λ v. length v.items ≡ count) }
    ensures small { IfOk result (λ v. AreUpTo (2 ^ 31) v.items) }
{
    let mut samples = Vec::new(alloc);
    let mut state: u16 = 1;
    for _ in 0..count {
        state = state.wrapping_mul(25173).wrapping_add(13849);
        samples.push((i64::from(state) - 32768) * 65536)?;
    }
    Ok(samples)
}

/// These samples.
pub fn widened(alloc: Global, samples: &[i16]) -> Result<Vec<i64>, AllocError>
    ensures { IfOk result (λ v. AreUpTo (2 ^ 31) v.items) }
{
    let mut list = Vec::new(alloc);
    for sample in samples {
        list.push(i64::from(*sample))?;
    }
    Ok(list)
}

/// The channels that come into a graph and go out of it.
#[derive(Clone, Copy)]
pub struct Widths {
    pub ins: usize,
    pub outs: usize,
}

/// How many channels the input and the output of a graph have.
pub fn widths_of(checked: &Checked) -> Widths
    ensures ins { result.ins ≡ in_channels checked.now }
    ensures outs { result.outs ≡ out_channels checked.now }
    ensures some { 0 < result.ins }
    ensures few { result.ins ≤ 32 }
    ensures fewer { result.outs ≤ 32 }
{
    Widths {
        ins: checked.input_channels() as usize,
        outs: checked.output_channels() as usize,
    }
}

/// So many zeros.
fn zeros(alloc: Global, len: usize) -> Result<Vec<i64>, AllocError>
    ensures { IfOk result (λ list. list.items ≡ replicate len (pos 0)) }
{
    Ok(vec![in alloc; 0; len]?)
}

/// Takes one block through an engine.
pub fn block<R: Threads + Sync, G: Gate + Sync>(
    rt: &R,
    gate: &G,
    alloc: Global,
    engine: &mut Engine,
    widths: Widths,
    frames: usize,
    samples: &[i64],
) -> Result<Vec<i64>, AllocError>
    requires longest { engine.old.block ≡ 8192 }
    requires early { engine.old.frames < 2 ^ 62 }
    requires ins { widths.ins ≡ ins engine.old }
    requires outs { widths.outs ≡ outs engine.old }
    requires some_in { 0 < widths.ins }
    requires narrow { widths.outs ≤ 32 }
    requires some { 1 ≤ frames }
    requires most { frames ≤ 8192 }
    requires whole { length samples.now ≡ frames * widths.ins }
    requires small { AreUpTo (2 ^ 31) samples.now }
    ensures { IsSame engine.old engine.new }
{
    let mut heard = zeros(alloc, frames * widths.outs)?;
    engine.render(rt, gate, samples, heard.as_mut_slice());
    Ok(heard)
}

/// How many frames of so many samples are the next block, where a cutting says `cut`.
fn fitting(cut: usize, ins: usize, samples: usize) -> usize
    requires { 0 < ins }
    ensures most { result ≤ 8192 }
    ensures within { result * ins ≤ samples }
    ensures fits { result * ins < 2 ^ 64 }
{
    cut.min(8192).min(samples / ins)
}

/// Takes an input through an engine in blocks of these lengths, in frames, as far as there are samples.
fn in_blocks<R: Threads + Sync>(
    rt: &R,
    alloc: Global,
    engine: &mut Engine,
    widths: Widths,
    cuts: &[usize],
    samples: &[i64],
) -> Result<Vec<i64>, AllocError>
    requires longest { engine.old.block ≡ 8192 }
    requires ins { widths.ins ≡ ins engine.old }
    requires outs { widths.outs ≡ outs engine.old }
    requires some_in { 0 < widths.ins }
    requires narrow { widths.outs ≤ 32 }
    requires small { AreUpTo (2 ^ 31) samples.now }
{
    let mut heard = Vec::new(alloc);
    let mut rest = samples;
    for cut in cuts {
        let frames = fitting(*cut, widths.ins, rest.len());
        if frames > 0 && engine.frames() < 1 << 62 {
            let (now, later) = rest.split_at(frames * widths.ins);
            let more = block(rt, &Open, alloc, engine, widths, frames, now)?;
            heard.extend_from_slice(more.as_slice())?;
            rest = later;
        }
    }
    Ok(heard)
}

/// What a new engine gives of an input in these blocks.
pub fn rendered<R: Threads + Sync>(
    rt: &R,
    alloc: Global,
    checked: &Checked,
    plan: &Plan,
    cuts: &[usize],
    samples: &[i64],
) -> Result<Vec<i64>, AllocError>
    requires certified { IsCertified checked.now plan.now }
    requires small { AreUpTo (2 ^ 31) samples.now }
{
    let widths = widths_of(checked);
    let mut engine = Engine::new(alloc, checked, plan, 8192)?;
    in_blocks(rt, alloc, &mut engine, widths, cuts, samples)
}

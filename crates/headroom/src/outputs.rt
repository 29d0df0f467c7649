//! What the processors make of the bounds of their inputs.

ghost use Rattle.std.specs.Prelude.{◌≡◌, ◌*◌, ◌^◌, ◌≤◌, min, IfOk, length, map, replicate};
ghost use Rattle.std.specs.List.{range_with_len};
ghost use Rattle.graph_model.specs.Bounds.{out_bounds, weight, weighed};
ghost use Rattle.graph_model.specs.Filters.{gains_to};
ghost use Rattle.graph_model.specs.Kinds.{ins_of};
ghost use Rattle.graph_model.specs.Ranges.{HasRange};
ghost use Rattle.graph_model.specs.Rounding.{rounded_nat};
ghost use Rattle.headroom.specs.Loud.{kept};

use graph_model::{Kind, List, rs};
use std::alloc::{AllocError, Global};

/// The bound of each channel of the graph's input.
const OF_INPUT: u64 = 1 << 31;

/// `amount / 2^shift` to the nearest whole number, a half upward, as it is kept in 64 bits.
fn kept_rounded(amount: u128, shift: u32) -> u64
    requires amount { amount ≤ 2 ^ 120 }
    requires shift { shift ≤ 62 }
    ensures { result ≡ kept (rounded_nat amount shift) }
{
    rs(amount as i128, shift).min(u64::MAX as i128) as u64
}

/// The sum of the sizes of numbers.
fn weight_of(numbers: &[i32]) -> u64
    requires { length numbers.now ≤ 4096 }
    ensures value { result ≡ weight numbers.now }
    ensures small { result ≤ 2 ^ 43 }
{
    let mut sum = 0;
    for number in numbers {
        sum += number.unsigned_abs() as u64;
    }
    sum
}

/// The sum of the sizes of gains times bounds.
fn weighed_by(gains: &[i32], bounds: &[u64]) -> u128
    requires few { length bounds.now ≤ 32 }
    requires gains { length gains.now ≡ length bounds.now }
    ensures value { result ≡ weighed gains.now bounds.now }
    ensures small { result ≤ 2 ^ 100 }
{
    let mut sum = 0;
    for input in 0..bounds.len() {
        sum += gains[input].unsigned_abs() as u128 * bounds[input] as u128;
    }
    sum
}

/// A bound for each of that many channels.
fn same_for_all(alloc: Global, channels: usize, bound: u64) -> Result<List<u64>, AllocError>
    ensures { IfOk result (λ outs. outs ≡ replicate channels bound) }
{
    let bounds = vec![in alloc; bound; channels]?;
    List::from_slice(alloc, &bounds)
}

/// Each bound times a factor, over `2^shift`.
fn scaled(alloc: Global, bounds: &[u64], factor: u64, shift: u32) -> Result<List<u64>, AllocError>
    requires factor { factor ≤ 2 ^ 43 }
    requires shift { shift ≤ 62 }
    ensures { IfOk result (λ outs. outs ≡ map (λ b. kept (rounded_nat (factor * b) shift)) bounds.now) }
{
    let mut outs = List::new(alloc);
    for bound in bounds {
        outs.push(kept_rounded(factor as u128 * *bound as u128, shift))?;
    }
    Ok(outs)
}

/// Each bound, or the threshold where that is smaller.
fn at_most(alloc: Global, bounds: &[u64], threshold: u64) -> Result<List<u64>, AllocError>
    ensures { IfOk result (λ outs. outs ≡ map (λ b. min b threshold) bounds.now) }
{
    let mut outs = List::new(alloc);
    for bound in bounds {
        outs.push((*bound).min(threshold))?;
    }
    Ok(outs)
}

/// The outputs of a mixer, each with its own gain for each input, those of output 0 first.
fn mixed(alloc: Global, gains: &[i32], bounds: &[u64], outs: u32) -> Result<List<u64>, AllocError>
    requires few { length bounds.now ≤ 32 }
    requires gains { length gains.now ≡ length bounds.now * outs }
    ensures { IfOk result (λ v. v
        ≡ map (λ o. kept (rounded_nat (weighed (gains_to (length bounds.now) gains.now o) bounds.now) 16)) (range_with_len 0 outs)) }
{
    let ins = bounds.len();
    let mut mixed = List::new(alloc);
    for output in 0..outs as usize {
        let gains = &gains[output * ins..][..ins];
        mixed.push(kept_rounded(weighed_by(gains, bounds), 16))?;
    }
    Ok(mixed)
}

/// The bounds of a processor's output channels by those of its input channels, as they are kept in 64 bits.
pub(crate) fn outputs_of(alloc: Global, kind: &Kind, ins: &[u64]) -> Result<List<u64>, AllocError>
    requires range { HasRange kind.now }
    requires ins { length ins.now ≡ ins_of kind.now }
    ensures { IfOk result (λ outs. outs ≡ map kept (out_bounds kind.now ins.now)) }
{
    match kind {
        Kind::Input { channels } => same_for_all(alloc, *channels as usize, OF_INPUT),
        Kind::Output { .. } => Ok(List::new(alloc)),
        Kind::Gain { gain, .. } => scaled(alloc, ins, gain.unsigned_abs() as u64, 16),
        Kind::Mixer { outs, gains, .. } => mixed(alloc, gains.as_slice(), ins, *outs),
        Kind::Fir { taps, shift, .. } => scaled(alloc, ins, weight_of(taps.as_slice()), *shift),
        Kind::Biquad { bits, .. } => same_for_all(alloc, ins.len(), (1 << *bits) - 1),
        Kind::Limiter { threshold, .. } => at_most(alloc, ins, *threshold),
        Kind::Delay { .. } | Kind::Insert { .. } => List::from_slice(alloc, ins),
    }
}

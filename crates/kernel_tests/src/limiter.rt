//! What no clause says: worked frames of the limiter.

ghost use Rattle.std.specs.Prelude.{◌≡◌, ◌^◌, ◌<◌, ◌≤◌, ◌↔◌, IfOk, IsTrue, length, replicate, unsigned_abs};
ghost use Rattle.std.specs.List.{All};
ghost use Rattle.graph_model.specs.Kinds.{ins_of, outs_of};
ghost use Rattle.graph_model.specs.Ranges.{HasRange};

use fixed_kernels::Kernel;
use graph_model::{Bound, Kind, List};
use limiter_kernel::Limiter;
use std::alloc::{AllocError, Global};
use std::process::Abort;
use std::test::Fail;

/// The greatest size of a sample.
const GREATEST: u64 = 1 << 46;

/// As many times the same number.
fn copies(alloc: Global, count: u32, number: u64) -> Result<List<u64>, AllocError>
    ensures { IfOk result (λ list. list ≡ replicate count number) }
{
    let numbers = vec![in alloc; number; count as usize]?;
    List::from_slice(alloc, &numbers)
}

/// A limiter whose inputs may have any size up to the greatest.
fn open_limiter(
    alloc: Global,
    channels: u32,
    threshold: u64,
    lookahead: u32,
) -> Result<Limiter, AllocError>
    requires { HasRange (Kind.Limiter channels threshold lookahead) }
    ensures kind { IfOk result (λ k. k.kind ≡ Kind.Limiter channels threshold lookahead) }
    ensures bound { IfOk result (λ k. k.bound.ins ≡ replicate channels (2 ^ 46)) }
{
    let kind = Kind::Limiter {
        channels,
        threshold,
        lookahead,
    };
    let bound = Bound {
        ins: copies(alloc, channels, GREATEST)?,
        outs: copies(alloc, channels, threshold)?,
    };
    Limiter::make(alloc, &kind, &bound)
}

/// Whether it has a sample for each channel, none above the greatest size.
fn is_frame(channels: u32, frame: &[i64]) -> bool
    ensures { IsTrue result ↔ ((length frame.now ≡ channels) × All (λ x. unsigned_abs x ≤ 2 ^ 46) frame.now) }
{
    frame.len() == channels as usize && frame.iter().all(|sample| sample.unsigned_abs() <= GREATEST)
}

/// What goes out when a frame comes in.
fn passed(
    alloc: Global,
    limiter: &mut Limiter,
    channels: u32,
    frame: &[i64],
) -> Result<Vec<i64>, AllocError>
    requires ins { ins_of limiter.old.kind ≡ channels }
    requires outs { outs_of limiter.old.kind ≡ channels }
    requires bound { limiter.old.bound.ins ≡ replicate channels (2 ^ 46) }
    requires frame { length frame.now ≡ channels }
    requires small { All (λ x. unsigned_abs x ≤ 2 ^ 46) frame.now }
    ensures kind { limiter.new.kind ≡ limiter.old.kind }
    ensures bound { limiter.new.bound ≡ limiter.old.bound }
{
    let mut outs = vec![in alloc; 0i64; channels as usize]?;
    limiter.frame(frame, &mut outs);
    Ok(outs)
}

/// Frames that come in, and those that have to go out, both interleaved.
fn check_frames(
    rt: &impl Abort,
    alloc: Global,
    limiter: &mut Limiter,
    channels: u32,
    samples: &[i64],
    expected: &[i64],
) -> Result<(), AllocError>
    requires some { 0 < channels }
    requires ins { ins_of limiter.old.kind ≡ channels }
    requires outs { outs_of limiter.old.kind ≡ channels }
    requires bound { limiter.old.bound.ins ≡ replicate channels (2 ^ 46) }
    ensures kind { limiter.new.kind ≡ limiter.old.kind }
    ensures bound { limiter.new.bound ≡ limiter.old.bound }
{
    let width = channels as usize;
    let mut output = Vec::new(alloc);
    for frame in samples.chunks_exact(width) {
        assert!(rt; is_frame(channels, frame));
        output.extend_from_slice(&passed(alloc, limiter, channels, frame)?)?;
    }
    assert_eq!(rt; output.as_slice(), expected);
    Ok(())
}

/// The same of a limiter of one channel that nothing has come into.
fn check_mono(
    rt: &impl Abort,
    alloc: Global,
    threshold: u64,
    lookahead: u32,
    samples: &[i64],
    expected: &[i64],
) -> Result<(), AllocError>
    requires { HasRange (Kind.Limiter 1 threshold lookahead) }
{
    let mut limiter = open_limiter(alloc, 1, threshold, lookahead)?;
    check_frames(rt, alloc, &mut limiter, 1, samples, expected)
}

#[test]
fn a_peak_is_turned_down_before_it_goes_out(rt: HostRuntime) -> Result<(), Fail> {
    let samples = [13107200, 3276800, 0];
    check_mono(
        &rt,
        rt.alloc(),
        6553600,
        1,
        &samples,
        &[0, 6553600, 2457600],
    )?;
    Ok(())
}

#[test]
fn halves_are_rounded_toward_zero(rt: HostRuntime) -> Result<(), Fail> {
    check_mono(&rt, rt.alloc(), 1, 1, &[-1, 2, 0, 0], &[0, 0, 1, 0])?;
    Ok(())
}

#[test]
fn zeros_leave_it_as_it_was_made(rt: HostRuntime) -> Result<(), Fail> {
    let samples = [0, 0, 0, 0, 0, 13107200, 3276800, 0];
    check_mono(
        &rt,
        rt.alloc(),
        6553600,
        1,
        &samples,
        &[0, 0, 0, 0, 0, 0, 6553600, 2457600],
    )?;
    Ok(())
}

#[test]
fn the_loudest_channel_turns_down_all(rt: HostRuntime) -> Result<(), Fail> {
    let mut samples = vec![in rt.alloc(); 100i64; 64]?;
    samples[31] = -2000;
    let mut expected = vec![in rt.alloc(); 0i64; 32]?;
    expected.extend_from_slice(&[50; 32])?;
    expected[63] = -1000;
    let mut limiter = open_limiter(rt.alloc(), 32, 1000, 1)?;
    check_frames(&rt, rt.alloc(), &mut limiter, 32, &samples, &expected)?;
    Ok(())
}

#[test]
fn a_peak_is_known_the_whole_lookahead_before(rt: HostRuntime) -> Result<(), Fail> {
    let mut samples = vec![in rt.alloc(); 1000i64; 8193]?;
    samples[8191] = -2000;
    let mut expected = vec![in rt.alloc(); 0i64; 8193]?;
    expected[8192] = 999;
    check_mono(&rt, rt.alloc(), 1000, 8192, &samples, &expected)?;
    Ok(())
}

#[test]
fn the_greatest_sizes_fit(rt: HostRuntime) -> Result<(), Fail> {
    let most = GREATEST as i64;
    check_mono(
        &rt,
        rt.alloc(),
        GREATEST,
        1,
        &[most, -most, most],
        &[0, most, -most],
    )?;
    check_mono(&rt, rt.alloc(), 1, 1, &[most, -most, 0, 0], &[0, 0, 0, 0])?;
    Ok(())
}

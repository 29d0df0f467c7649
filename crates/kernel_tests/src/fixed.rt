//! What no clause says: worked samples of each kernel.

ghost use Rattle.std.specs.Prelude.{◌≡◌, ◌≤◌, ◌^◌, ◌-◌, ◌∷◌, [], IfOk, pos, replicate, unsigned_abs};
ghost use Rattle.graph_model.specs.Kinds.{ins_of, outs_of};
ghost use Rattle.graph_model.specs.Ranges.{IsFrom};

use fixed_kernels::{Biquad, Fir, Gain, Hold, Kernel, Mixer};
use graph_model::{Bound, Kind, List};
use std::alloc::{AllocError, Global};
use std::test::Fail;

fn bound_of(alloc: Global, ins: &[u64], outs: &[u64]) -> Result<Bound, AllocError>
    ensures { IfOk result (λ b. b ≡ record { ins = ins.now; outs = outs.now }) }
{
    Ok(Bound {
        ins: List::from_slice(alloc, ins)?,
        outs: List::from_slice(alloc, outs)?,
    })
}

#[test]
fn a_gain_of_a_half_rounds_up(rt: HostRuntime) -> Result<(), Fail> {
    let alloc = rt.alloc();
    let kind = Kind::Gain {
        channels: 2,
        gain: 32768,
    };
    let mut gain = Gain::make(alloc, &kind, &bound_of(alloc, &[100, 4], &[50, 2])?)?;
    let mut outs = [0; 2];
    gain.frame(&[99, -3], &mut outs);
    assert_eq!(rt; outs, [50, -1]);
    Ok(())
}

#[test]
fn a_mixer_that_swaps_its_channels(rt: HostRuntime) -> Result<(), Fail> {
    let alloc = rt.alloc();
    let kind = Kind::Mixer {
        ins: 2,
        outs: 2,
        gains: List::from_slice(alloc, &[0, 65536, 65536, 0])?,
    };
    let mut mixer = Mixer::make(alloc, &kind, &bound_of(alloc, &[8, 9], &[9, 8])?)?;
    let mut outs = [0; 2];
    mixer.frame(&[1, 2], &mut outs);
    assert_eq!(rt; outs, [2, 1]);
    Ok(())
}

#[test]
fn a_mixer_of_three_inputs_into_one_output(rt: HostRuntime) -> Result<(), Fail> {
    let alloc = rt.alloc();
    let kind = Kind::Mixer {
        ins: 3,
        outs: 1,
        gains: List::from_slice(alloc, &[65536, 32768, -65536])?,
    };
    let mut mixer = Mixer::make(alloc, &kind, &bound_of(alloc, &[10, 10, 10], &[25])?)?;
    let mut outs = [0; 1];
    mixer.frame(&[10, 5, 3], &mut outs);
    assert_eq!(rt; outs, [10]);
    Ok(())
}

#[test]
fn a_delay_of_one_frame(rt: HostRuntime) -> Result<(), Fail> {
    let alloc = rt.alloc();
    let kind = Kind::Delay {
        channels: 1,
        samples: 1,
    };
    let mut delay = Hold::make(alloc, &kind, &bound_of(alloc, &[9], &[9])?)?;
    let mut outs = [5; 1];
    delay.frame(&[7], &mut outs);
    assert_eq!(rt; outs, [0]);
    delay.frame(&[8], &mut outs);
    assert_eq!(rt; outs, [7]);
    Ok(())
}

#[test]
fn an_insert_of_no_frames_passes_the_sample(rt: HostRuntime) -> Result<(), Fail> {
    let alloc = rt.alloc();
    let kind = Kind::Insert {
        channels: 1,
        samples: 0,
    };
    let mut insert = Hold::make(alloc, &kind, &bound_of(alloc, &[9], &[9])?)?;
    let mut outs = [5; 1];
    insert.frame(&[7], &mut outs);
    assert_eq!(rt; outs, [7]);
    Ok(())
}

#[test]
fn an_insert_of_five_frames(rt: HostRuntime) -> Result<(), Fail> {
    let alloc = rt.alloc();
    let kind = Kind::Insert {
        channels: 1,
        samples: 5,
    };
    let mut insert = Hold::make(alloc, &kind, &bound_of(alloc, &[1000], &[1000])?)?;
    let mut outs = [5; 1];
    insert.frame(&[1000], &mut outs);
    assert_eq!(rt; outs, [0]);
    for _ in 0..4 {
        insert.frame(&[0], &mut outs);
    }
    assert_eq!(rt; outs, [0]);
    insert.frame(&[0], &mut outs);
    assert_eq!(rt; outs, [1000]);
    Ok(())
}

#[test]
fn a_filter_of_three_taps(rt: HostRuntime) -> Result<(), Fail> {
    let alloc = rt.alloc();
    let kind = Kind::Fir {
        channels: 1,
        taps: List::from_slice(alloc, &[1, 2, 1])?,
        shift: 0,
        latency: 1,
    };
    let bound = bound_of(alloc, &[2147483648], &[8589934592])?;
    let mut fir = Fir::make(alloc, &kind, &bound)?;
    let mut outs = [0; 1];
    fir.frame(&[262144], &mut outs);
    assert_eq!(rt; outs, [262144]);
    fir.frame(&[0], &mut outs);
    assert_eq!(rt; outs, [524288]);
    fir.frame(&[0], &mut outs);
    assert_eq!(rt; outs, [262144]);
    Ok(())
}

/// Taps of the greatest size.
fn greatest_taps(alloc: Global, count: usize) -> Result<List<i32>, AllocError>
    ensures { IfOk result (λ taps. taps ≡ replicate count (pos 16777215)) }
{
    let mut taps = List::new(alloc);
    for _ in 0..count {
        taps.push(16777215)?;
    }
    Ok(taps)
}

/// The last sample that goes out where the same one comes in again and again.
fn last_of(fir: &mut Fir, frames: u32, sample: i64) -> i64
    requires kind { (ins_of fir.old.kind ≡ 1) × (outs_of fir.old.kind ≡ 1) }
    requires bound { fir.old.bound.ins ≡ 2 ^ 40 ∷ [] }
    requires sample { unsigned_abs sample ≤ 2 ^ 40 }
{
    let mut outs = [0; 1];
    for _ in 0..frames {
        fir.frame(&[sample], &mut outs);
    }
    outs[0]
}

#[test]
fn a_filter_of_the_most_taps_at_their_limits(rt: HostRuntime) -> Result<(), Fail> {
    let alloc = rt.alloc();
    let kind = Kind::Fir {
        channels: 1,
        taps: greatest_taps(alloc, 4096)?,
        shift: 30,
        latency: 4095,
    };
    let bound = bound_of(alloc, &[1099511627776], &[70368739983360])?;
    let mut fir = Fir::make(alloc, &kind, &bound)?;
    let out = last_of(&mut fir, 4096, -1099511627776);
    assert_eq!(rt; out, -70368739983360);
    Ok(())
}

/// The first sample that goes out of a biquad of the greatest coefficient for its newest input.
fn first_of(
    alloc: Global,
    shift: u32,
    bits: u32,
    limit: u64,
    sample: i64,
) -> Result<i64, AllocError>
    requires shift { IsFrom 1 30 shift }
    requires bits { IsFrom 16 40 bits }
    requires limit { limit ≡ 2 ^ bits - 1 }
    requires small { limit ≤ 2 ^ 46 }
    requires sample { unsigned_abs sample ≤ 2 ^ 46 }
{
    let kind = Kind::Biquad {
        channels: 1,
        b0: 2147483647,
        b1: 0,
        b2: 0,
        a1: 0,
        a2: 0,
        shift,
        bits,
    };
    let bound = bound_of(alloc, &[70368744177664], &[limit])?;
    let mut biquad = Biquad::make(alloc, &kind, &bound)?;
    let mut outs = [0; 1];
    biquad.frame(&[sample], &mut outs);
    Ok(outs[0])
}

#[test]
fn a_biquad_at_the_limits_of_shift_and_bits(rt: HostRuntime) -> Result<(), Fail> {
    let alloc = rt.alloc();
    let (most, wide) = (70368744177664, 1099511627775);
    assert_eq!(rt; first_of(alloc, 1, 16, 65535, most)?, 65535);
    assert_eq!(rt; first_of(alloc, 30, 16, 65535, -most)?, -65535);
    assert_eq!(rt; first_of(alloc, 1, 40, wide, -most)?, -1099511627775);
    assert_eq!(rt; first_of(alloc, 30, 40, wide, most)?, 1099511627775);
    assert_eq!(rt; first_of(alloc, 30, 40, wide, 274877906944)?, 549755813632);
    Ok(())
}

#[test]
fn a_biquad_that_is_clamped_and_feeds_that_back(rt: HostRuntime) -> Result<(), Fail> {
    let alloc = rt.alloc();
    let kind = Kind::Biquad {
        channels: 1,
        b0: 2,
        b1: 0,
        b2: 0,
        a1: -1,
        a2: 0,
        shift: 1,
        bits: 16,
    };
    let mut biquad = Biquad::make(alloc, &kind, &bound_of(alloc, &[70000], &[65535])?)?;
    let mut outs = [0; 1];
    biquad.frame(&[70000], &mut outs);
    assert_eq!(rt; outs, [65535]);
    biquad.frame(&[0], &mut outs);
    assert_eq!(rt; outs, [32768]);
    biquad.frame(&[0], &mut outs);
    assert_eq!(rt; outs, [16384]);
    Ok(())
}

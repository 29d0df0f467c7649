//! What no clause says: a kernel of each kind is taken by its name and passes samples.

ghost use Rattle.std.specs.Prelude.{◌≡◌, ◌∷◌, [], IfOk};
ghost use Rattle.graph_model.specs.Kernels.{IsFrameWithin};
ghost use Rattle.graph_model.specs.Kinds.{ins_of, outs_of};

use graph_model::{Bound, Kind, List};
use processors::laws::{kernels_are_causal, kernels_are_quiet};
use processors::{Kernel, Processor};
use std::alloc::{AllocError, Global};
use std::test::Fail;

fn bound_of(alloc: Global, ins: &[u64], outs: &[u64]) -> Result<Bound, AllocError>
    ensures { IfOk result (λ b. b ≡ record { ins = ins.now; outs = outs.now }) }
{
    Ok(Bound {
        ins: List::from_slice(alloc, ins)?,
        outs: List::from_slice(alloc, outs)?,
    })
}

/// The sample that goes out of a kernel of one channel when this one comes in.
fn passed<K: Kernel>(kernel: &mut K, sample: i64) -> i64
    requires ins { ins_of (K.state kernel.old).kind ≡ 1 }
    requires outs { outs_of (K.state kernel.old).kind ≡ 1 }
    requires within { IsFrameWithin (K.state kernel.old).bound.ins (sample ∷ []) }
    ensures kind { (K.state kernel.new).kind ≡ (K.state kernel.old).kind }
    ensures bound { (K.state kernel.new).bound ≡ (K.state kernel.old).bound }
{
    let mut outs = [0; 1];
    kernel.frame(&[sample], &mut outs);
    outs[0]
}

#[test]
fn a_gain_of_a_half_rounds_up(rt: HostRuntime) -> Result<(), Fail> {
    let alloc = rt.alloc();
    let kind = Kind::Gain {
        channels: 2,
        gain: 32768,
    };
    let mut gain = Processor::make(alloc, &kind, &bound_of(alloc, &[100, 4], &[50, 2])?)?;
    let mut outs = [0; 2];
    gain.frame(&[99, -3], &mut outs);
    assert_eq!(rt; outs, [50, -1]);
    kernels_are_causal(&gain);
    kernels_are_quiet(&gain);
    Ok(())
}

#[test]
fn a_delay_of_one_frame(rt: HostRuntime) -> Result<(), Fail> {
    let alloc = rt.alloc();
    let kind = Kind::Delay {
        channels: 1,
        samples: 1,
    };
    let mut delay = Processor::make(alloc, &kind, &bound_of(alloc, &[9], &[9])?)?;
    assert_eq!(rt; passed(&mut delay, 7), 0);
    assert_eq!(rt; passed(&mut delay, 8), 7);
    Ok(())
}

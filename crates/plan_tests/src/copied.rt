//! A copy of a plan is equal to it, and a change shows.

use plan_model::Plan;
use plan_text::read;
use std::alloc::Global;
use std::test::Fail;

/// The plan of an input that is joined to an output, but for its peak and its end.
const STRAIGHT: &str = "\
plan 1
latency 0
path 1 2
at 1 0
at 2 0
line 0 0
total 0
arc 1 2 1
bound 0
wave 1
wave 2
home 1 0 0
channels 1
";

/// That plan with a peak as given.
fn straight(alloc: Global, peak: u64) -> Result<Plan, Fail> {
    let text = format!(in alloc; "{STRAIGHT}peak {peak}\nend\n")?;
    Ok(read(alloc, text.as_bytes())?)
}

#[test]
fn a_copy_is_equal_and_another_peak_is_not(rt: HostRuntime) -> Result<(), Fail> {
    let plan = straight(rt.alloc(), 0)?;
    let copy = plan.copy(rt.alloc())?;
    assert_eq!(rt; copy, plan);
    assert_eq!(rt; copy.waves.len(), 2);
    assert_ne!(rt; copy, straight(rt.alloc(), 1)?);
    Ok(())
}

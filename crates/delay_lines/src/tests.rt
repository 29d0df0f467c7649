//! A line below, at and above its block, and one that holds nothing.

ghost use Rattle.std.specs.Prelude.{◌≤◌, ◌^◌};

use super::*;
use std::alloc::{AllocError, Global};

/// What comes out of a new line as 1 to 8 go in, in two blocks.
fn heard(alloc: Global, delay: u64) -> Result<[i64; 8], AllocError>
    requires { delay ≤ 2 ^ 26 }
{
    let mut line = Line::new(alloc, delay)?;
    let mut out = [0; 8];
    line.pass_block(&[1, 2, 3, 4], &mut out[..4]);
    line.pass_block(&[5, 6, 7, 8], &mut out[4..]);
    Ok(out)
}

#[test]
fn blocks_of_four_come_late_by_the_delay(rt: HostRuntime) -> Result<(), AllocError> {
    let alloc = rt.alloc();
    assert_eq!(rt; heard(alloc, 0)?, [1, 2, 3, 4, 5, 6, 7, 8]);
    assert_eq!(rt; heard(alloc, 3)?, [0, 0, 0, 1, 2, 3, 4, 5]);
    assert_eq!(rt; heard(alloc, 4)?, [0, 0, 0, 0, 1, 2, 3, 4]);
    assert_eq!(rt; heard(alloc, 6)?, [0, 0, 0, 0, 0, 0, 1, 2]);
    Ok(())
}

#[test]
fn the_newest_sample_stands_one_back(rt: HostRuntime) -> Result<(), AllocError> {
    let mut line = Line::new(rt.alloc(), 3)?;
    line.pass(1);
    line.pass(2);
    assert_eq!(rt; [line.before(1), line.before(2), line.before(3)], [2, 1, 0]);
    Ok(())
}

//! Samples of a seed.

ghost use Rattle.std.specs.Prelude.{◌≡◌, ◌*◌, IfOk};
ghost use Rattle.graph_gen.specs.Draws.{samples_drawn};

use crate::draws::Draws;
use graph_model::List;
use std::alloc::{AllocError, Global};

/// So many frames of two channels, interleaved. Each sample has 16 bits, and is scaled to 32. It fails only for want of
/// memory.
pub fn samples_of(alloc: Global, seed: u64, frames: u32) -> Result<List<i64>, AllocError>
    ensures { IfOk result (λ samples. samples ≡ samples_drawn seed (frames * 2)) }
{
    let mut draws = Draws { state: seed };
    let mut samples = List::new(alloc);
    for _sample in 0..u64::from(frames) * 2 {
        samples.push(draws.sample())?;
    }
    Ok(samples)
}

//! What a job does in a block, as a trait.

ghost use Rattle.std.specs.Prelude.{◌≡◌, length};

use crate::buffer::Buffer;
use crate::job::Home;

/// What a job does in a block: it reads what is left of the pool and what all jobs share, and reads and writes the
/// buffers of its own values.
pub trait Part<S> {
    ghost use Rattle.std.specs.Prelude.{ℕ, ℤ, List};
    ghost use Rattle.pool_waves.specs.declared.job.Home.{Home as Value};

    /// It may take this many frames, over what is shared, a pool, the homes of its values and their buffers.
    ghost ready: { S → ℕ → List (List ℤ) → List Value → List (List ℤ) → Self → Type 0 };

    /// What it leaves then of the buffers and of itself.
    ghost done: { S → ℕ → List (List ℤ) → List Value → List (List ℤ) → Self → List (List ℤ) → Self → Type 0 };

    /// Takes the frames of a block. `outs` has the buffers of its values, in the order of their homes.
    fn play(
        &mut self,
        shared: &S,
        pool: &[Buffer],
        homes: &[Home],
        outs: &mut [Buffer],
        frames: usize,
    )
        requires { ready shared.now frames pool.now homes.now outs.old self.old }
        ensures len { length outs.new ≡ length outs.old }
        ensures done { done shared.now frames pool.now homes.now outs.old self.old outs.new self.new };
}

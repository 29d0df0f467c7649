//! A sub-block of all that a node gives.

ghost use Rattle.std.specs.Prelude.{◌≡◌, ℕ, ◌+◌, ◌*◌, ◌<◌, ◌≤◌, ◌⊎◌, pos, [], length, slice_index_or};

use pool_waves::{Buffer, Home};

/// Writes a sub-block of a node's values, from the frame `first` on, into their buffers: the sample of channel c in
/// frame t stands at c * count + t.
pub fn scatter(homes: &[Home], told: &[i64], first: usize, count: usize, outs: &mut [Buffer])
    requires homes { length homes.now ≡ length outs.old }
    requires channels { (o : ℕ) (d : _) → o < length homes.now → (slice_index_or homes.now o d).channel * count + count ≤ length told.now }
    requires room { (o : ℕ) → o < length outs.old → first + count ≤ length (slice_index_or outs.old o []) }
    ensures lengths { (o : ℕ) → length (slice_index_or outs.new o []) ≡ length (slice_index_or outs.old o []) }
    ensures samples { (o t : ℕ) (d : _) → o < length homes.now → t < count
        → slice_index_or (slice_index_or outs.new o []) (first + t) (pos 0)
        ≡ slice_index_or told.now ((slice_index_or homes.now o d).channel * count + t) (pos 0) }
    ensures rest { (o j : ℕ) → (j < first) ⊎ (first + count ≤ j)
        → slice_index_or (slice_index_or outs.new o []) j (pos 0) ≡ slice_index_or (slice_index_or outs.old o []) j (pos 0) }
{
    for o in 0..homes.len() {
        let base = homes[o].channel * count;
        outs[o].write(first, &told[base..base + count]);
    }
}

//! How many values are born and die in each wave.

ghost use Rattle.std.specs.Prelude.{◌≡◌, ℕ, ◌<◌, ◌≤◌, ◌==◌, length, slice_index, count_by, IfOk};
ghost use Rattle.std.specs.List.{All};
ghost use Rattle.plan_model.specs.Buffers.{is_born, is_dying};

use plan_model::Life;
use std::alloc::{AllocError, Global};

/// How often each of the numbers 0, 1, .. up to `limit - 1` stands in a list.
fn tally(alloc: Global, limit: u32, numbers: Vec<u32>) -> Result<Vec<u32>, AllocError>
    requires within { All (λ n. n < limit) numbers.items }
    requires few { length numbers.items ≤ 16384 }
    ensures one_each { IfOk result (λ v. length v.items ≡ limit) }
    ensures counts { IfOk result (λ v. (k : ℕ) → k < limit → slice_index v.items k ≡ count_by (λ n. n == k) numbers.items) }
{
    let mut counts = vec![in alloc; 0; limit as usize]?;
    for number in &numbers {
        counts[*number as usize] += 1;
    }
    Ok(counts)
}

/// How many values are born in each wave.
pub(crate) fn births(alloc: Global, lives: &[Life], waves: u32) -> Result<Vec<u32>, AllocError>
    requires within { All (λ x. x.born < waves) lives.now }
    requires few { length lives.now ≤ 16384 }
    ensures one_each { IfOk result (λ v. length v.items ≡ waves) }
    ensures births { IfOk result (λ v. (s : ℕ) → s < waves → slice_index v.items s ≡ count_by (is_born s) lives.now) }
{
    let born = lives.iter().map(|life| life.born).collect(alloc)?;
    tally(alloc, waves, born)
}

/// How many values die in each wave.
pub(crate) fn deaths(alloc: Global, lives: &[Life], waves: u32) -> Result<Vec<u32>, AllocError>
    requires within { All (λ x. x.dies < waves) lives.now }
    requires few { length lives.now ≤ 16384 }
    ensures one_each { IfOk result (λ v. length v.items ≡ waves) }
    ensures deaths { IfOk result (λ v. (s : ℕ) → s < waves → slice_index v.items s ≡ count_by (is_dying s) lives.now) }
{
    let dies = lives.iter().map(|life| life.dies).collect(alloc)?;
    tally(alloc, waves, dies)
}

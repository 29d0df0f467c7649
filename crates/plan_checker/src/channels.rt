//! The buffers of the values.

ghost use Rattle.std.specs.Prelude.{◌≡◌, ℕ, ◌<◌, length, IfOk, MatchBool};
ghost use Rattle.std.specs.List.{All, AllZip};
ghost use Rattle.plan_model.specs.Buffers.{Follows, IsAssignment, MayShare};
ghost use Rattle.plan_model.specs.Places.{IsFirstBad, IsHomeAt};
ghost use Rattle.plan_checker.specs.Answers.{Judges};
ghost use Rattle.plan_checker.specs.Buffers.{AreApart};

use crate::tenants::all_fit;
use plan_model::{Home, Life};
use std::alloc::{AllocError, Global};

/// Whether a value may have the buffer that another had: that one dies before it is born, or just there with its node
/// as the sole reader.
pub(crate) fn follows(first: Life, second: Life) -> bool
    ensures { MatchBool result (Follows first second) (Follows first second → ⊥) }
{
    if first.dies < second.born {
        return true;
    }
    first.dies == second.born && first.reader == Some(second.uid)
}

/// Whether two values may share a buffer.
fn may_share(first: Life, second: Life) -> bool
    ensures { MatchBool result (MayShare first second) (MayShare first second → ⊥) }
{
    follows(first, second) || follows(second, first)
}

/// Whether two values have other buffers, or may share the one that they have.
fn are_apart(lives: &[Life], homes: &[Home], j: usize, k: usize) -> bool
    requires first { j < length homes.now }
    requires second { k < length homes.now }
    requires each { length lives.now ≡ length homes.now }
    ensures { MatchBool result (AreApart lives.now homes.now j k) (AreApart lives.now homes.now j k → ⊥) }
{
    if homes[j].buffer != homes[k].buffer {
        return true;
    }
    may_share(lives[j], lives[k])
}

/// Whether the buffer of a home is below `channels`, and the homes before it that have it may share it.
fn is_home(lives: &[Life], homes: &[Home], channels: u32, k: usize) -> bool
    requires within { k < length homes.now }
    requires each { length lives.now ≡ length homes.now }
    ensures { MatchBool result
        (IsHomeAt lives.now homes.now channels k)
        (IsHomeAt lives.now homes.now channels k → ⊥) }
{
    if homes[k].buffer >= channels {
        return false;
    }
    for j in 0..k {
        if !are_apart(lives, homes, j, k) {
            return false;
        }
    }
    true
}

/// Whether all buffers are below `channels`.
fn are_below(homes: &[Home], channels: u32) -> bool
    ensures { MatchBool result (All (λ h. h.buffer < channels) homes.now) (All (λ h. h.buffer < channels) homes.now → ⊥) }
{
    for home in homes {
        if home.buffer >= channels {
            return false;
        }
    }
    true
}

/// The first bad home, found by looking at each beside all those before it.
fn first_bad_home(lives: &[Life], homes: &[Home], channels: u32) -> Option<u64>
    requires { AllZip (λ x h. (h.uid ≡ x.uid) × (h.channel ≡ x.channel)) lives.now homes.now }
    ensures { Judges result (IsAssignment lives.now homes.now channels) (IsFirstBad (IsHomeAt lives.now homes.now channels)) }
{
    for k in 0..homes.len() {
        if !is_home(lives, homes, channels, k) {
            return Some(k as u64);
        }
    }
    None
}

/// All buffers are below `channels`, and no two values that interfere have one buffer.
///
/// Where all fit, one look at each value in the order of the buffers shows it; each is looked at beside all those
/// before it only to find the place.
pub(crate) fn channels(
    alloc: Global,
    lives: &[Life],
    homes: &[Home],
    channels: u32,
) -> Result<Option<u64>, AllocError>
    requires beside { AllZip (λ x h. (h.uid ≡ x.uid) × (h.channel ≡ x.channel)) lives.now homes.now }
    requires lasting { All (λ x. x.born < x.dies) lives.now }
    ensures { IfOk result (λ answer. Judges answer
        (IsAssignment lives.now homes.now channels)
        (IsFirstBad (IsHomeAt lives.now homes.now channels))) }
{
    if are_below(homes, channels) {
        if all_fit(alloc, lives, homes)? {
            return Ok(None);
        }
    }
    Ok(first_bad_home(lives, homes, channels))
}

//! The least assignment of buffers to values.
//!
//! A value lives from the wave in which it is born to the one in which it dies. Two values may share a buffer where
//! one follows the other: it is born after the other dies, or just there, of the node that alone reads the other.
//! [`assign`] gives each value a buffer. It goes over the lives in the order of their births, as register allocation by
//! linear scan does (Poletto and Sarkar, Linear Scan Register Allocation, 1999): a value takes over a buffer in place
//! where it can, or else takes one whose value died before, and a new one only where there is neither.
//!
//! It promises that no assignment of these lives has fewer buffers, that no wave needs more, and the first wave that
//! needs them all. It fails only for want of memory. Its time does not depend on how long the values live.
//!
//! It stands on `plan_model` for lives, homes and needs, and for the law that no assignment has fewer buffers than a
//! wave needs, and on `graph_model` for lists. It knows of no graph and of no schedule.
#![tactic(auto)]

ghost use Rattle.std.specs.Prelude.{◌≡◌, ◌≤◌, ℕ, length, IfOk};
ghost use Rattle.plan_model.specs.Buffers.{AreLives, IsAssignment, IsLeastChannels, need_of_wave};
ghost use Rattle.plan_model.specs.Rules.{IsPeak};

mod lives;
mod orders;
mod packing;

use crate::orders::{homes_of, sort_by_value};
use crate::packing::pack;
use graph_model::List;
pub use lives::are_lives;
use plan_model::{Home, Life};
use std::alloc::{AllocError, Global};

/// Buffers for values, and how many.
#[derive(Debug, PartialEq, Eq, Drop)]
pub struct Homes {
    /// The buffers of the values, in the order of their lives.
    pub homes: List<Home>,
    /// How many buffers there are.
    pub channels: u32,
    /// The index of the first wave that needs `channels` buffers; 0 where there are no values.
    pub peak: u64,
}

/// A buffer for each value, with as few buffers as any assignment has.
///
/// Lives ascend by uid and then by channel; `waves` is the number of waves of their schedule. [`are_lives`] tests that.
/// It fails only for want of memory.
pub fn assign(alloc: Global, lives: &List<Life>, waves: u32) -> Result<Homes, AllocError>
    requires lives { AreLives lives.now waves }
    requires few { length lives.now ≤ 16384 }
    requires some_wave { 1 ≤ waves }
    ensures assignment { IfOk result (λ h. IsAssignment lives.now h.homes h.channels) }
    ensures least { IfOk result (λ h. IsLeastChannels lives.now h.channels) }
    ensures greatest_need { IfOk result (λ h. (s : ℕ) → need_of_wave lives.now s ≤ h.channels) }
    ensures peak { IfOk result (λ h. IsPeak lives.now waves h.channels h.peak) }
{
    let mut packing = pack(alloc, lives.as_slice())?;
    sort_by_value(&mut packing.placed)?;
    Ok(Homes {
        homes: homes_of(alloc, &packing.placed)?,
        channels: packing.channels(),
        peak: u64::from(packing.peak),
    })
}

//! Answers that a call may refuse.

ghost use Rattle.std.specs.Prelude.{◌≡◌};

use std::alloc::AllocError;

/// Why a call has no answer: a fault of what it was given, or want of memory.
#[derive(Debug, PartialEq, Eq, Drop)]
pub enum Refused<E> {
    /// What it was given is at fault.
    Fault(E),
    /// There was no memory. This comes at any time, and says nothing of what was given.
    Memory,
}

impl<E> From<AllocError> for Refused<E> {
    ghost use Rattle.graph_model.specs.declared.refused.Refused.TheVariants.{Memory};

    ghost from_gives = { λ _ refused. refused ≡ Memory };

    /// Want of memory is no fault.
    fn from(_error: AllocError) -> Refused<E> {
        Refused::Memory
    }
}

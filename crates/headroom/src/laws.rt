//! Laws of the definitions.

ghost use Rattle.headroom.specs.Laws.{TooLoudRefutes, TooLoudIsUnique};

/// Where a place is too loud, not all bounds are at most 2^46.
pub fn too_loud_refutes()
    ensures { TooLoudRefutes }
{}

/// A graph has one first place at most.
pub fn too_loud_is_unique()
    ensures { TooLoudIsUnique }
{}

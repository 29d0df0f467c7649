//! Laws of the answer.

ghost use Rattle.plan_model.specs.Optimal.{PositionsNeverShow};

/// The positions of an alignment never show but as a shift of the answer: whatever the delays between the nodes, what
/// comes into the output node is the answer, later by as much as that node stands after its reach.
pub fn positions_never_show()
    ensures { PositionsNeverShow }
{}

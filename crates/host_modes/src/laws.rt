//! Laws of the definitions.

ghost use Rattle.host_modes.specs.Laws.{CompiledIsYes, EndIsOne};

/// With what a folder holds, what is asked has one end, but for the walk of a cycle.
pub fn end_is_one()
    ensures { EndIsOne }
{}

/// The text of a plan that was compiled of a graph is judged yes for that graph.
pub fn compiled_is_yes()
    ensures { CompiledIsYes }
{}

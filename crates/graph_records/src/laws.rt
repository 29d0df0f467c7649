//! Laws of the definitions.

ghost use Rattle.graph_records.specs.Laws.{WrittenIsRead};

/// Reading what was written gives the graph.
pub fn written_is_read()
    ensures { WrittenIsRead }
{}

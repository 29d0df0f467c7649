//! Laws of the definitions.

ghost use Rattle.connections.specs.Laws.{FaultsAreUnsound, FirstFaultIsUnique};

/// A graph with a first fault is not sound.
pub fn faults_are_unsound()
    ensures { FaultsAreUnsound }
{}

/// A graph has one first fault, but for the walk of a cycle.
pub fn first_fault_is_unique()
    ensures { FirstFaultIsUnique }
{}

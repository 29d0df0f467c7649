//! Laws of the definitions.

ghost use Rattle.graph_gen.specs.Laws.{GeneratedIsSound, GeneratedIsAsWanted, SamplesAreInput};

/// Every generated graph is sound.
pub fn generated_is_sound()
    ensures { GeneratedIsSound }
{}

/// It has as many nodes as are wanted, and takes and gives two channels.
pub fn generated_is_as_wanted()
    ensures { GeneratedIsAsWanted }
{}

/// There are as many samples as are wanted, and each fits the input of a graph: it is at most 2^31 in size.
pub fn samples_are_input()
    ensures { SamplesAreInput }
{}

//! Laws of the definitions.

ghost use Rattle.engine_model.specs.Cuttings.{NoCuttingShows, OutputsAreAnswers};
ghost use Rattle.engine_model.specs.Laws.{BlocksRun, NewStands, OrdersGiveAnswers, OrdersNeverShow};
ghost use Rattle.engine_model.specs.Sizes.{DelaysAreBounded, SumsAreBounded};

/// The order of the frame events of a block does not show.
pub fn orders_never_show()
    ensures { OrdersNeverShow }
{}

/// A block, its frame events in any orders, takes every live node of a certified plan that many frames further.
pub fn blocks_run()
    ensures { BlocksRun }
{}

/// An engine that a block leaves as its frame events do, in every order, stands for the history with the block, and its
/// output is the answer.
pub fn orders_give_answers()
    ensures { OrdersGiveAnswers }
{}

/// Blocks joined are as one block.
pub fn no_cutting_shows()
    ensures { NoCuttingShows }
{}

/// Of a new engine the outputs of all blocks joined are the answer of their inputs joined.
pub fn outputs_are_answers()
    ensures { OutputsAreAnswers }
{}

/// A new job stands for no frames.
pub fn new_stands()
    ensures { NewStands }
{}

/// No sum that a node takes, nor a part of it, passes the bound of its channel.
pub fn sums_are_bounded()
    ensures { SumsAreBounded }
{}

/// No line of a certified plan is longer than 2^26 samples.
pub fn delays_are_bounded()
    ensures { DelaysAreBounded }
{}

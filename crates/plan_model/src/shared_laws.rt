//! Laws of the definitions of plans with one delay line for each value.

ghost use Rattle.plan_model.specs.SharedCertified.{Certified2IsOptimal, SharedLatencyIsReach};
ghost use Rattle.plan_model.specs.SharedDuality.{SharedLeastOfOptima, SharedOptimumIsTight, SharedTightIsOptimum, SharedWeakDuality};
ghost use Rattle.plan_model.specs.SharedLives.{SharedFoundIsLife, SharedLifeIsFound};
ghost use Rattle.plan_model.specs.SharedPlaces.{No2IsOne, PointArcsByEntries, PointNeedsByEntries};
ghost use Rattle.plan_model.specs.SharedResults.{PartsAreCertified2, Plan2IsOne, PlanForIsOne, SharedAlignmentIsOne};
ghost use Rattle.plan_model.specs.SharedSizes.{LinesAreLongEnough, LinesAreShort, SharedBuffersAreApart, SharedChannelsAreFew, SharedHaveBuffers};

/// No alignment has a smaller sum of lines than the bound of a flow for its latency.
pub fn shared_weak_duality()
    ensures { SharedWeakDuality }
{}

/// An alignment whose sum of lines is the bound is tight, with its mirrors, wherever the flow has units.
pub fn shared_optimum_is_tight()
    ensures { SharedOptimumIsTight }
{}

/// A tight alignment has the bound as its sum of lines.
pub fn shared_tight_is_optimum()
    ensures { SharedTightIsOptimum }
{}

/// The least tight potentials give the best alignment of shared lines, and its lines.
pub fn shared_least_of_optima()
    ensures { SharedLeastOfOptima }
{}

/// A certified plan of shared lines has the least latency, the least sum of lines, and the least channels for its waves
/// and lines.
pub fn certified2_is_optimal()
    ensures { Certified2IsOptimal }
{}

/// The latency of a certified plan of shared lines is the longest path's.
pub fn shared_latency_is_reach()
    ensures { SharedLatencyIsReach }
{}

/// The live range of a value with a line, in words, is what the function gives.
pub fn shared_life_is_found()
    ensures { SharedLifeIsFound }
{}

/// What the function gives of a value that is read is its live range, in words.
pub fn shared_found_is_life()
    ensures { SharedFoundIsLife }
{}

/// The rule `arcs` holds where it does of each entry.
pub fn point_arcs_by_entries()
    ensures { PointArcsByEntries }
{}

/// The rule `need` holds where it does at each point, in their order.
pub fn point_needs_by_entries()
    ensures { PointNeedsByEntries }
{}

/// A plan of shared lines is refused by one rule and at one place.
pub fn no2_is_one()
    ensures { No2IsOne }
{}

/// Positions, lines and total are functions of the graph: two answers for it have the same. The flow is free.
pub fn shared_alignment_is_one()
    ensures { SharedAlignmentIsOne }
{}

/// An alignment, the printed path, a schedule and an assignment for its lives make a certified plan of shared lines.
pub fn parts_are_certified2()
    ensures { PartsAreCertified2 }
{}

/// All parts of a plan of shared lines but the flow and the buffers of the values are functions of graph and waves.
pub fn plan_for_is_one()
    ensures { PlanForIsOne }
{}

/// They are functions of graph and mode.
pub fn plan2_is_one()
    ensures { Plan2IsOne }
{}

/// No line of a certified plan exceeds 2^26 frames.
pub fn lines_are_short()
    ensures { LinesAreShort }
{}

/// Each line is at least the delay of every live connection that reads its value.
pub fn lines_are_long_enough()
    ensures { LinesAreLongEnough }
{}

/// A certified plan of shared lines has at most 8,192 channels.
pub fn shared_channels_are_few()
    ensures { SharedChannelsAreFew }
{}

/// Each live connection reads a channel that has a buffer of the pool.
pub fn shared_have_buffers()
    ensures { SharedHaveBuffers }
{}

/// Two channels with one buffer are the same, or their values may share it.
pub fn shared_buffers_are_apart()
    ensures { SharedBuffersAreApart }
{}

//! Laws of the definitions: weak duality, and why complementary slackness certifies what [`solve`](crate::solve) gives.

ghost use Rattle.min_cost_flow.specs.Laws.{WeakDuality, TightReachesBound, TightIsOptimal};

/// No flow that meets the needs has a greater sum of units times least difference than the sum of need times potential,
/// for any potentials that keep the least differences.
pub fn weak_duality()
    ensures { WeakDuality }
{}

/// The two sums are equal where flow and potentials satisfy complementary slackness.
pub fn tight_reaches_bound()
    ensures { TightReachesBound }
{}

/// So such a flow is one of least cost, and such potentials give the least bound.
pub fn tight_is_optimal()
    ensures { TightIsOptimal }
{}

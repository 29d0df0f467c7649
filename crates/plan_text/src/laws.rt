//! Laws of the definitions.

ghost use Rattle.plan_text.specs.Laws.{FirstBadIsOne, ReadingIsExact, TextHasNoBad, TextHasOnePlan};

/// A text has one plan.
pub fn text_has_one_plan()
    ensures { TextHasOnePlan }
{}

/// Bytes have one first bad line at most.
pub fn first_bad_is_one()
    ensures { FirstBadIsOne }
{}

/// The text of a plan has no bad line.
pub fn text_has_no_bad()
    ensures { TextHasNoBad }
{}

/// Reading the text of a plan gives that plan, or fails for want of memory.
pub fn reading_is_exact()
    ensures { ReadingIsExact }
{}

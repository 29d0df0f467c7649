//! Laws of lines.

ghost use Rattle.delay_lines.specs.Laws.{BlocksJoin, DelaysByItsLength, PassesOn, ViewsAgree};

/// What comes out of a block and what is held then are functions of what was held and what came in.
pub fn passes_on()
    ensures { PassesOn }
{}

/// A new line gives zeros, as many as it is long, and then the samples that were passed in.
pub fn delays_by_its_length()
    ensures { DelaysByItsLength }
{}

/// Two blocks, one after the other, are one.
pub fn blocks_join()
    ensures { BlocksJoin }
{}

/// A line with the newest sample first, sample by sample, gives and holds the same.
pub fn views_agree()
    ensures { ViewsAgree }
{}

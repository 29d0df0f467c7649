//! Why words ask for nothing.

ghost use Rattle.std.specs.Prelude.{◌≡◌};
ghost use Rattle.graph_model.specs.declared.refused.Refused.TheVariants.{Fault};

use graph_model::Refused;

/// Why words ask for nothing.
#[derive(Clone, Copy, Debug, PartialEq, Eq)]
pub enum WordsFault {
    /// The words are no request.
    NoRequest,
    /// The words are a request of `demo`, but for a number that is out of range.
    OutOfRange,
}

impl From<WordsFault> for Refused<WordsFault> {
    ghost from_gives = { λ fault refused. refused ≡ Fault fault };

    fn from(fault: WordsFault) -> Refused<WordsFault> {
        Refused::Fault(fault)
    }
}

//! Why bytes are not read as a graph.

ghost use Rattle.std.specs.Prelude.{◌≡◌, Some};
ghost use Rattle.graph_model.specs.declared.refused.Refused.TheVariants.{Fault};
ghost use Rattle.graph_records.specs.FaultTexts.{part_text, place_text};

use graph_model::{Member, Refused};
use std::fmt;
use thiserror::Error;

/// The list of records that a fault lies in.
#[derive(Clone, Copy, Debug, PartialEq, Eq)]
pub enum Part {
    /// None: the value of the text, or the object that holds both lists.
    Top,
    /// The records of nodes, `FILTER`.
    Filter,
    /// The records of connections, `CONNECTION`.
    Link,
}

/// Where a fault lies: a member of one record, or the record itself where the member is `Item`.
#[derive(Clone, Copy, Debug, PartialEq, Eq)]
pub struct Place {
    pub part: Part,
    /// The record's place in its list, from 0; 0 at the top.
    pub index: u32,
    pub member: Member,
}

/// Why bytes are not read as a graph.
#[derive(Clone, Copy, Debug, PartialEq, Eq, Error)]
pub enum RecordFault {
    /// They are no JSON text.
    #[error("no JSON text")]
    Text,
    /// A member is missing or has another form, or a record is no object.
    #[error("wrong form at {place}")]
    Shape { place: Place },
    /// A whole number that its type does not hold, or the length of a list with too many records.
    #[error("{got} is out of range at {place}")]
    Limit { place: Place, got: i128 },
}

impl fmt::Display for Part {
    ghost output = { λ p. Some (part_text p) };

    fn fmt<W: fmt::Write>(&self, f: &mut fmt::Formatter<W>) -> fmt::Result {
        match self {
            Part::Top => write!(f, "top"),
            Part::Filter => write!(f, "filter"),
            Part::Link => write!(f, "connection"),
        }
    }
}

impl fmt::Display for Place {
    ghost output = { λ p. Some (place_text p) };

    fn fmt<W: fmt::Write>(&self, f: &mut fmt::Formatter<W>) -> fmt::Result {
        write!(f, "{} {} {}", self.part, self.index, self.member.name())
    }
}

impl From<RecordFault> for Refused<RecordFault> {
    ghost from_gives = { λ fault e. e ≡ Fault fault };

    fn from(fault: RecordFault) -> Refused<RecordFault> {
        Refused::Fault(fault)
    }
}

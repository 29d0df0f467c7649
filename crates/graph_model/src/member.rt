//! The members of a graph's records.

ghost use Rattle.std.specs.Prelude.{◌≡◌};

/// A member of a graph's records in JSON, or a whole record where it is `Item`.
#[derive(Clone, Copy, Debug, PartialEq, Eq)]
pub enum Member {
    Graph,
    Filter,
    Connection,
    Item,
    Uid,
    Kind,
    Channels,
    Ins,
    Outs,
    Gain,
    Gains,
    Taps,
    Shift,
    Latency,
    B0,
    B1,
    B2,
    A1,
    A2,
    Bits,
    Threshold,
    Lookahead,
    Samples,
    SrcFilter,
    SrcChannel,
    DstFilter,
    DstChannel,
}

impl Member {
    ghost use Rattle.graph_model.specs.Members.{name_of};

    /// Its name in the records, which is ASCII.
    pub fn name(self) -> &'static str
        ensures { result.now ≡ name_of self }
    {
        match self {
            Member::Graph => "FILTERGRAPH",
            Member::Filter => "FILTER",
            Member::Connection => "CONNECTION",
            Member::Item => "record",
            Member::Uid => "uid",
            Member::Kind => "kind",
            Member::Channels => "channels",
            Member::Ins => "ins",
            Member::Outs => "outs",
            Member::Gain => "gain",
            Member::Gains => "gains",
            Member::Taps => "taps",
            Member::Shift => "shift",
            Member::Latency => "latency",
            Member::B0 => "b0",
            Member::B1 => "b1",
            Member::B2 => "b2",
            Member::A1 => "a1",
            Member::A2 => "a2",
            Member::Bits => "bits",
            Member::Threshold => "threshold",
            Member::Lookahead => "lookahead",
            Member::Samples => "samples",
            Member::SrcFilter => "srcFilter",
            Member::SrcChannel => "srcChannel",
            Member::DstFilter => "dstFilter",
            Member::DstChannel => "dstChannel",
        }
    }
}

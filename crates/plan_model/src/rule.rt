//! The rules by which a plan is certified.

/// A rule of certified plans, named after what it is about; they are tested in this order.
///
/// Beside each stands the place that is named where it is the first to fail.
#[derive(Clone, Copy, Debug, PartialEq, Eq)]
pub enum Rule {
    /// `at` names exactly the live nodes, ascending. Place: the index of the first entry that differs.
    At,
    /// A live input node is at 0. Place: its position.
    Input,
    /// No connection leads to a position before the end of its source. Place: the index of the first that does.
    Alignment,
    /// The output node is at `latency`. Place: its position.
    Latency,
    /// `lines` are the delays of the live connections. Place: the index of the first entry that differs.
    Lines,
    /// The delays sum up to `total`. Place: `total`.
    Total,
    /// `path` is a path into the output node. Place: the index of the first entry that is no node or leads on to no
    /// next one.
    Path,
    /// The latencies of the path sum up to `latency`. Place: their sum.
    Longest,
    /// `arcs` are arcs of the network with units, ascending. Place: the index of the first that is not.
    Arcs,
    /// At each point, units in minus units out are its need. Place: the first point where they are not.
    Need,
    /// The flow's bound is `bound`. Place: `bound`.
    Bound,
    /// `total` is `bound`. Place: `total`.
    Least,
    /// `waves` is a schedule. Place: the index of the first bad wave, or their number where a live node is in none.
    Waves,
    /// `homes` are for exactly the values, ascending. Place: the index of the first entry that differs.
    Homes,
    /// No two values that interfere have one buffer, and all are below `channels`. Place: the index of the first bad
    /// home.
    Channels,
    /// `peak` is the first wave that needs `channels`. Place: `peak`.
    Peak,
}

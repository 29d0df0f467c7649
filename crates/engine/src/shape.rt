//! What does not change as an engine renders.

/// How many channels come into the graph and go out of it, which job is that of the output node, where in the list of
/// jobs each wave ends, and how much work of each wave other threads can take off one.
#[derive(Drop)]
pub(crate) struct Shape {
    pub(crate) ins: usize,
    pub(crate) outs: usize,
    pub(crate) exit: usize,
    pub(crate) ends: Vec<usize>,
    pub(crate) spares: Vec<u64>,
}

//! Where a job may be held before its first frame, so that tests can make two jobs meet.

/// A place that a job passes before its first frame. The call returns, and answers nothing, so that no gate can change
/// what a job does.
pub trait Gate {
    /// The job of the node of this index passes.
    fn pass(&self, node: u32);
}

/// The gate that is always open.
#[derive(Clone, Copy)]
pub struct Open;

impl Gate for Open {
    fn pass(&self, _node: u32) {}
}

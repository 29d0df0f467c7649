//! Requests by their modes.

use crate::check::CheckRequest;
use crate::compile::CompileRequest;
use crate::demo::DemoRequest;
use crate::render::RenderRequest;

/// What words ask for.
#[derive(Debug, Drop)]
pub enum Request<'a> {
    /// To render a file through a graph.
    Render(RenderRequest<'a>),
    /// To compile the plan of a graph.
    Compile(CompileRequest<'a>),
    /// To check a plan of a graph.
    Check(CheckRequest<'a>),
    /// To show what the host does with a graph that is made of a number.
    Demo(DemoRequest),
}

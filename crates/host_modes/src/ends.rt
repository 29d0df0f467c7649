//! How a run ends.

ghost use Rattle.std.specs.Prelude.{◌≡◌};

use connections::GraphFault;
use engine::Engine;
use graph_records::RecordFault;
use plan_model::{Plan, Rule};
use thiserror::Error;
use wav_pcm::WavFault;

/// How a run ended. Its text, but for `Done` and `No`, is what the program prints on standard error.
#[derive(Debug, PartialEq, Eq, Error, Drop)]
pub enum End {
    /// The whole work was done. In `check`, the plan is certified.
    #[error("done")]
    Done,
    /// In `check`: the plan is not certified. The first rule that fails, and its place.
    #[error("the plan is not certified")]
    No { rule: Rule, place: u64 },
    /// The words are no request. Nothing was read or written.
    #[error("the words are no request")]
    Words,
    /// Input and output are one file. Nothing was read or written.
    #[error("input and output have the same name")]
    SameName,
    /// In `demo`: a number is out of range. Nothing was reported.
    #[error("a number of demo is out of range")]
    Seed,
    /// The graph's file holds no records of a graph. Nothing was reported or written.
    #[error("graph: {0}")]
    Records(RecordFault),
    /// The graph is not sound: its first check that fails. Nothing was reported or written.
    #[error("graph: {0}")]
    Graph(GraphFault),
    /// The input is no WAV file for the graph, or its output would be too long. Nothing was reported or written.
    #[error("wav: {0}")]
    Wav(WavFault),
    /// A read failed, or a file that the request reads is not there. Nothing was reported or written; or, in
    /// `render`, the plan was reported, and the output holds its head and just those of the frames that the engine
    /// has rendered which are kept.
    #[error("a read failed")]
    ReadFault,
    /// A write failed. The output is as it was, or holds a first part of the file, of no more frames than the engine
    /// has rendered.
    #[error("a write failed")]
    WriteFault,
    /// The report failed. It has gained a first part of its text, and nothing was written.
    #[error("the report failed")]
    ReportFault,
    /// There was no memory. Nothing was reported or written.
    #[error("no memory")]
    Memory,
    /// In `check`: the plan's file is no text of a plan. Its first bad line, counted from 1. Nothing was reported.
    #[error("plan: line {line}")]
    PlanText { line: u64 },
}

/// How a run ended, its plan and its engine.
#[derive(Drop)]
pub struct Outcome {
    pub end: End,
    /// The plan that was made, or judged in `check`, where the run came to its report.
    pub plan: Option<Plan>,
    /// The engine that rendered, in `render` and `demo`, where the run came to its report.
    pub engine: Option<Engine>,
}

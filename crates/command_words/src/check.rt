//! The words `check GRAPH PLAN`.

ghost use Rattle.std.specs.Prelude.{◌≡◌, IfOk, map, string_bytes};
ghost use Rattle.clap.specs.Words.{app_of};
ghost use Rattle.graph_model.specs.Refusals.{Gives, mapped};
ghost use Rattle.command_words.specs.Checking.{check_command, check_said, check_request};

use crate::commands::{positional, taken, wanted};
use crate::fault::WordsFault;
use clap::Command;
use graph_model::Refused;
use std::alloc::{AllocError, Global};

/// A request to check a plan of a graph.
#[derive(Debug, Drop)]
pub struct CheckRequest<'a> {
    /// The name of the graph's records.
    pub graph: &'a str,
    /// The name of the plan's text.
    pub plan: &'a str,
}

fn check_command<'a>(alloc: Global) -> Result<Command<'a>, AllocError>
    ensures { IfOk result (λ c. app_of c ≡ check_command) }
{
    Command::new(alloc, "check")
        .arg(positional(alloc, "GRAPH"))?
        .arg(positional(alloc, "PLAN"))
}

/// The request to check that the words are.
pub(crate) fn read_check<'a>(
    alloc: Global,
    words: &'a [String],
) -> Result<CheckRequest<'a>, Refused<WordsFault>>
    ensures { Gives (check_request (map string_bytes words.entry.now)) (mapped check_said result) }
{
    let matches = taken(check_command(alloc)?, words)?;
    Ok(CheckRequest {
        graph: wanted(&matches, "GRAPH")?,
        plan: wanted(&matches, "PLAN")?,
    })
}

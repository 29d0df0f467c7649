//! The words `compile GRAPH [--waves]`.

ghost use Rattle.std.specs.Prelude.{◌≡◌, IfOk, map, string_bytes};
ghost use Rattle.clap.specs.Words.{app_of};
ghost use Rattle.graph_model.specs.Refusals.{Gives, mapped};
ghost use Rattle.command_words.specs.Compiling.{compile_command, compile_said, compile_request};

use crate::commands::{flag, is_given, positional, taken, wanted};
use crate::fault::WordsFault;
use clap::Command;
use graph_model::Refused;
use std::alloc::{AllocError, Global};

/// A request to compile the plan of a graph.
#[derive(Debug, Drop)]
pub struct CompileRequest<'a> {
    /// The name of the graph's records.
    pub graph: &'a str,
    /// Whether the nodes are scheduled by waves.
    pub waves: bool,
}

fn compile_command<'a>(alloc: Global) -> Result<Command<'a>, AllocError>
    ensures { IfOk result (λ c. app_of c ≡ compile_command) }
{
    Command::new(alloc, "compile")
        .arg(positional(alloc, "GRAPH"))?
        .arg(flag(alloc, "waves"))
}

/// The request to compile that the words are.
pub(crate) fn read_compile<'a>(
    alloc: Global,
    words: &'a [String],
) -> Result<CompileRequest<'a>, Refused<WordsFault>>
    ensures { Gives (compile_request (map string_bytes words.entry.now)) (mapped compile_said result) }
{
    let matches = taken(compile_command(alloc)?, words)?;
    Ok(CompileRequest {
        graph: wanted(&matches, "GRAPH")?,
        waves: is_given(&matches, "waves"),
    })
}

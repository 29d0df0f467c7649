//! Lives of values that have delay lines.

ghost use Rattle.std.specs.Prelude.{◌≡◌, map, IfOk};
ghost use Rattle.std.specs.List.{zip};
ghost use Rattle.plan_model.specs.SharedLives.{free_of};

use graph_model::List;
use plan_model::{Life, LineOf};
use std::alloc::{AllocError, Global};

/// The life of a value with a line: unless that is empty, no node may write over the value in its last wave.
fn with_line(life: &Life, line: &LineOf) -> Life
    ensures { result ≡ free_of line.now.delay life.now }
{
    if line.delay == 0 {
        *life
    } else {
        Life {
            reader: None,
            ..*life
        }
    }
}

/// The lives of values with lines, which come in the same order.
pub(crate) fn with_lines(
    alloc: Global,
    lives: &[Life],
    lines: &[LineOf],
) -> Result<List<Life>, AllocError>
    ensures { IfOk result (λ v. v ≡ map (λ p. free_of p.1.delay p.0) (zip lives.now lines.now)) }
{
    let mut lined = List::new(alloc);
    for (life, line) in lives.iter().zip(lines) {
        lined.push(with_line(life, line))?;
    }
    Ok(lined)
}

//! What a run hands back.

ghost use Rattle.std.specs.Prelude.{◌≡◌};

use engine::Engine;
use host_modes::End;
use plan_model::Plan;

/// What a run hands back.
#[derive(Drop)]
pub struct Run {
    /// The program's exit status.
    pub status: u8,
    /// How it ended.
    pub end: End,
    /// The plan that was made, or judged in `check`, where the run came to its report.
    pub plan: Option<Plan>,
    /// The engine that rendered, in `render` and `demo`, where the run came to its report.
    pub engine: Option<Engine>,
}

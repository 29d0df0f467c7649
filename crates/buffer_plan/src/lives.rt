//! The test of what is asked of lives.

ghost use Rattle.std.specs.Prelude.{◌<◌, ◌↔◌, All, AllPairs, IsTrue};
ghost use Rattle.plan_model.specs.Buffers.{AreLives, IsLifeBefore};

use graph_model::List;
use plan_model::Life;

/// Whether each value dies after it is born, and within the waves.
fn all_last(lives: &[Life], waves: u32) -> bool
    ensures { IsTrue result ↔ All (λ x. (x.born < x.dies) × (x.dies < waves)) lives.now }
{
    lives
        .iter()
        .all(|life| life.born < life.dies && life.dies < waves)
}

/// Whether a value comes before another by uid and then by channel.
fn is_before(x: &Life, y: &Life) -> bool
    ensures { IsTrue result ↔ IsLifeBefore x.now y.now }
{
    x.uid.0 < y.uid.0 || (x.uid.0 == y.uid.0 && x.channel < y.channel)
}

/// Whether values ascend by uid and then by channel without repeats.
fn ascend(lives: &[Life]) -> bool
    ensures { IsTrue result ↔ AllPairs IsLifeBefore lives.now }
{
    for next in 1..lives.len() {
        if !is_before(&lives[next - 1], &lives[next]) {
            return false;
        }
    }
    true
}

/// Whether lives ascend by uid and then by channel without repeats, each born before it dies, all within the waves.
pub fn are_lives(lives: &List<Life>, waves: u32) -> bool
    ensures { IsTrue result ↔ AreLives lives.now waves }
{
    all_last(lives.as_slice(), waves) && ascend(lives.as_slice())
}

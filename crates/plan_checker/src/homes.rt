//! The homes of the values.

ghost use Rattle.std.specs.Prelude.{◌≡◌, List};
ghost use Rattle.std.specs.List.{common_prefix_len};
ghost use Rattle.graph_model.specs.declared.graph.Graph.{Graph};
ghost use Rattle.plan_model.specs.Lives.{AreValues, lives_of, ports_of, values};
ghost use Rattle.plan_model.specs.Places.{same_port};
ghost use Rattle.plan_model.specs.declared.schedule.Wave.{Wave};
ghost use Rattle.plan_checker.specs.Answers.{Judges};
ghost use Rattle.plan_checker.specs.Homes.{is_for};

use plan_model::{Home, Life};

/// Whether a home is for the value that lives.
fn is_for(home: Home, life: Life) -> bool
    ensures { result ≡ is_for home life }
{
    home.uid.0 == life.uid.0 && home.channel == life.channel
}

/// How many homes from the first on are for the values that live.
fn agreeing(homes: &[Home], lives: &[Life]) -> usize
    ensures { result ≡ common_prefix_len is_for homes.now lives.now }
{
    let shorter = homes.len().min(lives.len());
    for place in 0..shorter {
        if !is_for(homes[place], lives[place]) {
            return place;
        }
    }
    shorter
}

/// The homes are for exactly the values, in their order, which is that of the lives.
pub(crate) fn homes(lives: &[Life], homes: &[Home]) -> Option<u64>
    ensures { (g : Graph) (waves : List Wave) → lives.now ≡ lives_of g waves (values g)
        → Judges result
        (AreValues g (ports_of homes.now))
        (λ place. place ≡ common_prefix_len same_port (ports_of homes.now) (values g)) }
{
    let agreeing = agreeing(homes, lives);
    if agreeing == homes.len() && agreeing == lives.len() {
        return None;
    }
    Some(agreeing as u64)
}

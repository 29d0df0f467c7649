//! Which values take over the buffer of one that dies.

ghost use Rattle.std.specs.Prelude.{◌≡◌, ℕ, ◌-◌, ◌<◌, ◌≤◌, ◌==◌, ◌&&◌, nat_lt, if◌then◌else◌, length, count_by, min, IfOk};
ghost use Rattle.std.specs.List.{All, Contains};
ghost use Rattle.plan_model.specs.Buffers.{is_born_of, is_freed};
ghost use Rattle.lifetimes.specs.Turns.{count_in};

use plan_model::Life;
use std::alloc::{AllocError, Global};
use std::collections::HashMap;

/// A node in a wave.
#[derive(Clone, Copy, PartialEq, Eq, Hash, Drop)]
struct Turn {
    wave: u32,
    uid: u32,
}

/// How many values die in each wave with each node as their sole reader.
fn freed(alloc: Global, lives: &[Life]) -> Result<HashMap<Turn, u32>, AllocError>
    requires { length lives.now ≤ 16384 }
    ensures { IfOk result (λ m. (s a : ℕ) → count_in m s a ≡ count_by (is_freed s a) lives.now) }
{
    let mut freed = HashMap::new(alloc);
    for life in lives {
        if let Some(reader) = life.reader {
            let turn = Turn {
                wave: life.dies,
                uid: reader.0,
            };
            let others = freed.get(&turn).copied().unwrap_or(0);
            freed.insert(turn, others + 1)?;
        }
    }
    Ok(freed)
}

/// Takes one of the buffers that are free for a node in a wave, where there is one left.
fn take(free: &mut HashMap<Turn, u32>, turn: Turn) -> bool
    ensures some { result ≡ nat_lt 0 (count_in free.old turn.wave turn.uid) }
    ensures left { (s a : ℕ) → count_in free.new s a ≡ count_in free.old s a - (if (turn.wave == s) && (turn.uid == a) then 1 else 0) }
{
    let Some(left) = free.get_mut(&turn) else {
        return false;
    };
    if *left == 0 {
        return false;
    }
    *left -= 1;
    true
}

/// The values that take over a buffer in place: as many of a node's as die in its wave with it as their sole reader.
pub(crate) fn takers(alloc: Global, lives: &[Life]) -> Result<Vec<Life>, AllocError>
    requires { length lives.now ≤ 16384 }
    ensures taken { IfOk result (λ v. (s a : ℕ)
        → count_by (is_born_of s a) v.items ≡ min (count_by (is_born_of s a) lives.now) (count_by (is_freed s a) lives.now)) }
    ensures among { IfOk result (λ v. All (Contains lives.now) v.items) }
    ensures few { IfOk result (λ v. length v.items ≤ length lives.now) }
{
    let mut free = freed(alloc, lives)?;
    let mut takers = Vec::new(alloc);
    for life in lives {
        let turn = Turn {
            wave: life.born,
            uid: life.uid.0,
        };
        if take(&mut free, turn) {
            takers.push(*life)?;
        }
    }
    Ok(takers)
}

//! The orders in which values are placed and told.

ghost use Rattle.std.specs.Prelude.{◌≡◌, map, AllPairs, IfOk, OnOk};
ghost use Rattle.std.specs.List.Sorted.{IsNonDecreasingBy, IsPermutation};
ghost use Rattle.plan_model.specs.Buffers.{IsLifeBefore};
ghost use Rattle.buffer_plan.specs.Packed.{home_of};

use crate::packing::Placed;
use graph_model::List;
use plan_model::{Home, Life};
use std::alloc::{AllocError, Global};

/// The values in the order of their births.
pub(crate) fn by_birth(alloc: Global, lives: &[Life]) -> Result<Vec<Life>, AllocError>
    ensures permutation { IfOk result (λ order. IsPermutation lives.now order.items) }
    ensures births { IfOk result (λ order. IsNonDecreasingBy (λ x. x.born) order.items) }
{
    let mut order = Vec::from_slice(alloc, lives)?;
    order.sort_by_key(|life| life.born)?;
    Ok(order)
}

/// Sorts what was placed by uid and then by channel.
pub(crate) fn sort_by_value(placed: &mut Vec<Placed>) -> Result<(), AllocError>
    ensures permutation { OnOk result (IsPermutation placed.old.items placed.new.items) }
    ensures sorted { OnOk result (AllPairs (λ x y. ¬ IsLifeBefore y.life x.life) placed.new.items) }
{
    placed.sort_by_key(|it| (it.life.uid.0, it.life.channel))
}

/// The homes of what was placed.
pub(crate) fn homes_of(alloc: Global, placed: &[Placed]) -> Result<List<Home>, AllocError>
    ensures { IfOk result (λ homes. homes ≡ map home_of placed.now) }
{
    let mut homes = List::new(alloc);
    for it in placed {
        homes.push(Home {
            uid: it.life.uid,
            channel: it.life.channel,
            buffer: it.buffer,
        })?;
    }
    Ok(homes)
}

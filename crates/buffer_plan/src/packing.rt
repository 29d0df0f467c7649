//! Values placed into buffers, one after another in the order of their births.

ghost use Rattle.std.specs.Prelude.{◌≡◌, ◌<◌, ◌≤◌, [], ◌∷◌, ◌++◌, length, All, IfOk, OnOk, nat_lt, position};
ghost use Rattle.std.specs.List.Sorted.{IsPermutation};
ghost use Rattle.plan_model.specs.Buffers.{is_freed};
ghost use Rattle.buffer_plan.specs.Packed.{IsPacked, first_free, lives_in};

use crate::orders::by_birth;
use plan_model::Life;
use std::alloc::{AllocError, Global};

/// A value and the buffer that it was given.
#[derive(Clone, Copy, Debug)]
pub(crate) struct Placed {
    pub(crate) life: Life,
    pub(crate) buffer: u32,
}

/// The values so far in their buffers.
#[derive(Debug, Drop)]
pub(crate) struct Packing {
    /// The values in the order of their births.
    pub(crate) placed: Vec<Placed>,
    /// The value that each buffer had last.
    holders: Vec<Life>,
    /// The index of the first wave that needs all the buffers.
    pub(crate) peak: u32,
}

/// Whether a value dies where another is born, and that one's node alone reads it there.
fn frees(held: &Life, life: &Life) -> bool
    ensures { result ≡ is_freed life.now.born life.now.uid.0 held.now }
{
    held.dies == life.born && held.reader == Some(life.uid)
}

/// The first buffer that a value can take over in place.
fn in_place(holders: &[Life], life: &Life) -> Option<usize>
    ensures { result ≡ position (is_freed life.now.born life.now.uid.0) holders.now }
{
    holders.iter().position(|held| frees(held, life))
}

/// The first buffer whose value died before a value is born.
fn unused(holders: &[Life], life: &Life) -> Option<usize>
    ensures { result ≡ position (λ held. nat_lt held.dies life.now.born) holders.now }
{
    holders.iter().position(|held| held.dies < life.born)
}

/// The buffer that a value takes, where one is free for it.
fn free(holders: &[Life], life: &Life) -> Option<usize>
    ensures { result ≡ first_free holders.now life.now }
{
    in_place(holders, life).or_else(|| unused(holders, life))
}

impl Packing {
    /// No buffers.
    fn new(alloc: Global) -> Packing
        ensures placed { result.placed.items ≡ [] }
        ensures packed { IsPacked result.holders.items result.placed.items result.peak }
    {
        Packing {
            placed: Vec::new(alloc),
            holders: Vec::new(alloc),
            peak: 0,
        }
    }

    /// Places a value that is born no earlier than those before.
    fn place(&mut self, life: &Life) -> Result<(), AllocError>
        requires packed { IsPacked self.old.holders.items self.old.placed.items self.old.peak }
        requires born_last { All (λ z. z.life.born ≤ life.now.born) self.old.placed.items }
        requires lasting { life.now.born < life.now.dies }
        requires few { length self.old.placed.items < 16384 }
        ensures placed { OnOk result (lives_in self.new.placed.items ≡ lives_in self.old.placed.items ++ life.now ∷ []) }
        ensures packed { OnOk result (IsPacked self.new.holders.items self.new.placed.items self.new.peak) }
    {
        let buffer = match free(&self.holders, life) {
            Some(buffer) => {
                self.holders[buffer] = *life;
                buffer
            }
            None => {
                self.holders.push(*life)?;
                self.peak = life.born;
                self.holders.len() - 1
            }
        };
        self.placed.push(Placed {
            life: *life,
            buffer: buffer as u32,
        })?;
        Ok(())
    }

    /// How many buffers there are.
    pub(crate) fn channels(&self) -> u32
        requires few { length self.now.holders.items ≤ 16384 }
        ensures { result ≡ length self.now.holders.items }
    {
        self.holders.len() as u32
    }
}

/// Places all values, in the order of their births.
pub(crate) fn pack(alloc: Global, lives: &[Life]) -> Result<Packing, AllocError>
    requires lasting { All (λ x. x.born < x.dies) lives.now }
    requires few { length lives.now ≤ 16384 }
    ensures all { IfOk result (λ p. IsPermutation lives.now (lives_in p.placed.items)) }
    ensures packed { IfOk result (λ p. IsPacked p.holders.items p.placed.items p.peak) }
{
    let order = by_birth(alloc, lives)?;
    let mut packing = Packing::new(alloc);
    for life in &order {
        packing.place(life)?;
    }
    Ok(packing)
}

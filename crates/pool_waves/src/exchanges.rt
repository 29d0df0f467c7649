//! The lists of a wave's values change places with those of their buffers.

ghost use Rattle.std.specs.Prelude.{◌≡◌, ℕ, ◌<◌, length};
ghost use Rattle.pool_waves.specs.Exchanges.{AreApart, AreWithin, Exchanged, HaveLists, IsDistinct, SameBut, Swapped, buffer_at, desks};

use crate::buffer::Buffer;
use crate::job::{Desk, Home, Job};
use std::mem;

/// The lists of one job's values change places with those of their buffers.
fn swap_values(homes: &[Home], outs: &mut [Buffer], pool: &mut [Buffer])
    requires outs { length outs.old ≡ length homes.now }
    requires within { (o : ℕ) (e : _) → o < length homes.now → buffer_at homes.now o e < length pool.old }
    requires distinct { IsDistinct homes.now }
    ensures { Swapped homes.now outs.old pool.old outs.new pool.new }
{
    for o in 0..homes.len() {
        let b = homes[o].buffer;
        mem::swap(&mut outs[o], &mut pool[b]);
    }
}

impl Desk {
    /// The lists on the desk change places with those of the buffers of its values.
    fn trade(&mut self, pool: &mut [Buffer])
        requires outs { length self.old.outs.items ≡ length self.old.homes.items }
        requires within { (o : ℕ) (e : _) → o < length self.old.homes.items → buffer_at self.old.homes.items o e < length pool.old }
        requires distinct { IsDistinct self.old.homes.items }
        ensures homes { self.new.homes.items ≡ self.old.homes.items }
        ensures swapped { Swapped self.old.homes.items self.old.outs.items pool.old self.new.outs.items pool.new }
    {
        swap_values(self.homes.as_slice(), self.outs.as_mut_slice(), pool);
    }
}

/// The lists of a wave's values change places with those of their buffers.
pub fn exchange<P>(jobs: &mut [Job<P>], pool: &mut [Buffer])
    requires outs { HaveLists jobs.old }
    requires within { AreWithin (length pool.old) jobs.old }
    requires apart { AreApart (desks jobs.old) }
    ensures exchanged { Exchanged (desks jobs.old) pool.old (desks jobs.new) pool.new }
    ensures parts { SameBut jobs.old jobs.new }
{
    for i in 0..jobs.len() {
        jobs[i].desk.trade(pool);
    }
}

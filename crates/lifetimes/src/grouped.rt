//! Lives by what is read of the values.

ghost use Rattle.std.specs.Prelude.{◌≡◌, ◌<◌, ◌≤◌, ◌-◌, ◌∷◌, [], ◌++◌, ℕ, List, Some, IsTrue, ◌↔◌, length, slice_index_or, IfOk, AllPairs};
ghost use Rattle.plan_model.specs.declared.buffers.Life.{Life};
ghost use Rattle.lifetimes.specs.Reads.{IsOf, IsLifeBy, AreLivesBy, ReadBefore};
ghost use Rattle.lifetimes.specs.declared.reads.Read.{Read};

use crate::reads::Read;
use graph_model::{List, Uid};
use plan_model::Life;
use std::alloc::{AllocError, Global};

/// The life of a value that is read once.
fn alone(read: &Read) -> Life
    ensures { result ≡
        record {
          uid = read.now.uid;
          channel = read.now.channel;
          born = read.now.born;
          dies = read.now.wave;
          reader = Some read.now.reader;
        } }
{
    Life {
        uid: read.uid,
        channel: read.channel,
        born: read.born,
        dies: read.wave,
        reader: Some(read.reader),
    }
}

/// Whether a node is the sole reader of a value.
fn is_sole(life: &Life, uid: Uid) -> bool
    ensures { IsTrue result ↔ (life.now.reader ≡ Some uid) }
{
    match life.reader {
        Some(reader) => reader == uid,
        None => false,
    }
}

/// The life of a value that is read once more.
fn joined(life: &Life, read: &Read) -> Life
    requires { IsOf read.now life.now }
    ensures one_more { (reads : List Read) → IsLifeBy reads life.now → IsLifeBy (reads ++ read.now ∷ []) result }
    ensures value { (result.uid ≡ life.now.uid) × (result.channel ≡ life.now.channel) }
{
    if life.dies < read.wave {
        Life {
            dies: read.wave,
            reader: Some(read.reader),
            ..*life
        }
    } else if life.dies == read.wave && !is_sole(life, read.reader) {
        Life {
            reader: None,
            ..*life
        }
    } else {
        *life
    }
}

/// Whether the last of the lives is that of the value that is read.
fn is_of_last(lives: &[Life], read: &Read) -> bool
    ensures { (d : Life) → IsTrue result ↔ ((0 < length lives.now) × IsOf read.now (slice_index_or lives.now (length lives.now - 1) d)) }
{
    match lives.last() {
        Some(life) => life.uid == read.uid && life.channel == read.channel,
        None => false,
    }
}

/// One life for each value that is read. The reads of a value stand beside each other.
fn grouped(alloc: Global, reads: &[Read]) -> Result<List<Life>, AllocError>
    requires { AllPairs (λ r q. ¬ ReadBefore q r) reads.now }
    ensures lives { IfOk result (AreLivesBy reads.now) }
    ensures few { IfOk result (λ lives. length lives ≤ length reads.now) }
{
    let mut lives: Vec<Life> = Vec::new(alloc);
    for read in reads {
        if is_of_last(&lives, read) {
            let last = lives.len() - 1;
            lives[last] = joined(&lives[last], read);
        } else {
            lives.push(alone(read))?;
        }
    }
    List::from_slice(alloc, &lives)
}

/// One life for each value that is read. The reads come in any order.
pub(crate) fn lives_by(alloc: Global, mut reads: Vec<Read>) -> Result<List<Life>, AllocError>
    ensures lives { IfOk result (AreLivesBy reads.items) }
    ensures few { IfOk result (λ lives. length lives ≤ length reads.items) }
{
    reads.sort_unstable();
    grouped(alloc, &reads)
}

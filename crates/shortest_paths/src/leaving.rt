//! The edges that leave each point.

ghost use Rattle.std.specs.Prelude.{◌≡◌, ◌<◌, ◌≤◌, ◌^◌, length, IfOk, replicate, slice_index_or, None};
ghost use Rattle.std.specs.List.{All};
ghost use Rattle.shortest_paths.specs.Walks.{Joins};
ghost use Rattle.shortest_paths.specs.Leaving.{IsLeaving};

use crate::edges::Edge;
use std::alloc::{AllocError, Global};

/// The edges that leave each point, by their indexes.
#[derive(Debug, Drop)]
pub struct Leaving {
    // The last edge that leaves the point, for each point.
    pub(crate) newest: Vec<Option<u32>>,
    // The last edge before this one that leaves the same point, for each edge.
    pub(crate) older: Vec<Option<u32>>,
}

impl Leaving {
    /// Finds which of the edges leave each of the points 0 to `points - 1`. The call fails only for want of memory.
    pub fn new(alloc: Global, points: u32, edges: &[Edge]) -> Result<Leaving, AllocError>
        requires few { length edges.now ≤ 2 ^ 17 }
        requires ends { All (Joins points) edges.now }

        ensures { IfOk result (λ l. IsLeaving points edges.now l) }
    {
        let mut newest = no_indexes(alloc, points)?;
        let mut older = Vec::with_capacity(alloc, edges.len())?;
        for (index, edge) in edges.iter().enumerate() {
            let before = newest[edge.tail as usize];
            older.push(before)?;
            newest[edge.tail as usize] = Some(index as u32);
        }
        Ok(Leaving { newest, older })
    }

    /// The last edge that leaves a point, if one does.
    pub fn newest(&self, point: u32) -> Option<u32>
        requires point { point < length self.now.newest.items }

        ensures { result ≡ slice_index_or self.now.newest.items point None }
    {
        self.newest[point as usize]
    }

    /// The last edge before this one that leaves the same point, if one does.
    pub fn older(&self, index: u32) -> Option<u32>
        requires index { index < length self.now.older.items }

        ensures { result ≡ slice_index_or self.now.older.items index None }
    {
        self.older[index as usize]
    }
}

// No index for each point.
pub(crate) fn no_indexes(alloc: Global, points: u32) -> Result<Vec<Option<u32>>, AllocError>
    ensures { IfOk result (λ indexes. indexes.items ≡ replicate points None) }
{
    let mut indexes = Vec::with_capacity(alloc, points as usize)?;
    for _ in 0..points {
        indexes.push(None)?;
    }
    Ok(indexes)
}

//! The needs of the points: the units more that go in than out.

ghost use Rattle.std.specs.Prelude.{◌≡◌, ◌≤◌, ◌^◌, ◌==◌, length, map, count_by, pos, ◌-ℤ◌, IfOk};
ghost use Rattle.std.specs.List.{range_with_len};
ghost use Rattle.alignment.specs.Links.{need_at};

use crate::links::Link;
use std::alloc::{AllocError, Global};

/// The number of links into a point.
fn links_into(links: &[Link], point: u32) -> usize
    ensures { result ≡ count_by (λ l. l.head == point) links.now }
{
    links.iter().filter(|link| link.head == point).count()
}

/// The number of links out of a point.
fn links_out_of(links: &[Link], point: u32) -> usize
    ensures { result ≡ count_by (λ l. l.tail == point) links.now }
{
    links.iter().filter(|link| link.tail == point).count()
}

/// The units more that go into a point than out of it.
fn need(links: &[Link], point: u32) -> i64
    requires { length links.now ≤ 2 ^ 13 }
    ensures { result ≡ need_at links.now point }
{
    links_into(links, point) as i64 - links_out_of(links, point) as i64
}

/// The needs of the points 0 to `points - 1`.
pub(crate) fn needs(alloc: Global, points: u32, links: &[Link]) -> Result<Vec<i64>, AllocError>
    requires { length links.now ≤ 2 ^ 13 }
    ensures { IfOk result (λ v. v.items ≡ map (need_at links.now) (range_with_len 0 points)) }
{
    (0..points).map(|point| need(links, point)).collect(alloc)
}

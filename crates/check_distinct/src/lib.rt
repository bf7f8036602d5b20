// Refusal 16 by an index of the points: whether each point has no bit at n or above and is new. The checker goes on
// with the index, the writer does not; the search indexes the slots that it has filled by the same loop.
#![tactic(auto)]

ghost use Rattle.std.specs.Prelude.{◌≡◌, ◌*◌, ◌/◌, ◌≤◌, ◌<◌, IfSome};
ghost use Rattle.math.specs.Lists.{place_of};
ghost use Rattle.point_slices.specs.Slices.{points_of};
ghost use Rattle.formula.specs.Limits.{max_slots};
ghost use Rattle.formula.specs.Refusals.{fault_of};
ghost use Rattle.certificate.specs.Rows.{points_fault};
ghost use Rattle.check_distinct.specs.Laws.Indexing.{Growable, Grows, Indexable, Sifts, Refuses, Counted};

use formula::Formula;
use formula::reasons::{Reason, Refusal};
use point_slices::point_at;

// Whether the point at index i has no bit at n or above and equals none of the i before it, of which the links are an
// index; if so it is added. At most n + 1 comparisons.
fn point_enters(n: u32, points: &[u64], links: &mut [u32], heads: usize, i: usize) -> bool
    requires { Growable heads n i (points_of points.now) links.old }
    ensures { Grows heads n i (points_of points.now) result links.new }
{
    let x = point_at(points, i);
    points::below(x, n) && !point_index::add(n, points, links, heads, i, x)
}

// The index of the first of `count` points that fails; none if all pass, and then the links are an index of them. At
// most count · (n + 1) comparisons.
pub fn index_points(
    n: u32,
    points: &[u64],
    links: &mut [u32],
    heads: usize,
    count: usize,
) -> Option<usize>
    requires { Indexable heads n count (points_of points.now) links.old }
    ensures sifts { Sifts heads n count (points_of points.now) (place_of result) links.new }
    ensures inside { IfSome result (λ i. i < count) }
{
    for i in 0..count {
        if !point_enters(n, points, links, heads, i) {
            return Some(i);
        }
    }
    None
}

// Refusal 16 of a bad count: it has no place.
const BAD_COUNT: Refusal = Refusal {
    reason: Reason::CertificatePoints,
    place: 0,
};

// R16: refusal 16, of the first `count` points, of which at most `limit` are allowed. Where it finds nothing the links,
// all 0 before, are an index of the points.
pub fn points_refusal(
    n: u32,
    points: &[u64],
    links: &mut [u32],
    heads: usize,
    count: usize,
    limit: usize,
) -> Result<(), Refusal>
    requires { Indexable heads n count (points_of points.now) links.old }
    ensures { Refuses heads n count limit (points_of points.now) (fault_of result) links.new }
{
    if count < 1 || limit < count {
        return Err(BAD_COUNT);
    }
    match index_points(n, points, links, heads, count) {
        None => Ok(()),
        Some(i) => Err(Refusal {
            reason: Reason::CertificatePoints,
            place: i + 1,
        }),
    }
}

// For how many points arrays are made: very few, few, many, and as many as there can be.
pub const TINY_POINTS: usize = 64;

pub const FEW_POINTS: usize = 1024;

pub const MANY_POINTS: usize = 8192;

pub const MOST_POINTS: usize = Formula::MAX_SLOTS as usize;

// How many links an index of so many points has, a third of them heads.
pub const TINY_LINKS: usize = 3 * TINY_POINTS;

pub const FEW_LINKS: usize = 3 * FEW_POINTS;

pub const MANY_LINKS: usize = 3 * MANY_POINTS;

pub const MOST_LINKS: usize = 3 * MOST_POINTS;

// The same with links of its own, a third of them heads, for a third as many points at most. The stack holds them while
// it runs, and no longer.
#[inline(never)]
fn linked_refusal<const LINKS: usize>(
    n: u32,
    points: &[u64],
    count: usize,
    limit: usize,
) -> Result<(), Refusal>
    requires { (3 ≤ LINKS) × (LINKS ≤ 3 * max_slots) × Counted (LINKS / 3) n count (points_of points.now) }
    ensures { fault_of result ≡ points_fault limit n count (points_of points.now) }
{
    let mut links = [0u32; LINKS];
    points_refusal(n, points, &mut links, LINKS / 3, count, limit)
}

// R16: refusal 16 for callers that need no index after it: at most count · (n + 1) comparisons. The array suits the
// count, since each of its links is made 0 first: it takes from 768 bytes to 768 KiB of the stack.
pub fn local_refusal(n: u32, points: &[u64], count: usize, limit: usize) -> Result<(), Refusal>
    requires { Counted max_slots n limit (points_of points.now) }
    ensures { fault_of result ≡ points_fault limit n count (points_of points.now) }
{
    if limit < count {
        return Err(BAD_COUNT);
    }
    if count <= TINY_POINTS {
        linked_refusal::<{ TINY_LINKS }>(n, points, count, limit)
    } else if count <= FEW_POINTS {
        linked_refusal::<{ FEW_LINKS }>(n, points, count, limit)
    } else if count <= MANY_POINTS {
        linked_refusal::<{ MANY_LINKS }>(n, points, count, limit)
    } else {
        linked_refusal::<{ MOST_LINKS }>(n, points, count, limit)
    }
}

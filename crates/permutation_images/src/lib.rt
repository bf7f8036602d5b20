// Images of points and clauses under a permutation, and the permutation test. One permutation is a part of n bytes,
// the image of variable 1 first.
#![tactic(auto)]

ghost use Rattle.std.specs.Prelude.{cond, ◌≡◌, ◌+◌, ◌*◌, ◌/◌, ◌^◌, ◌≤◌, ◌<◌, eqb, length, take, drop};
ghost use Rattle.std.specs.Int.Bits.{bit_or};
ghost use Rattle.points.specs.Points.{point_digits};
ghost use Rattle.points.specs.Laws.Contracts.{clause_of};
ghost use Rattle.permutation_theory.specs.Permutations.{is_permutation, moved, image_of_point, image_of_clause};
ghost use Rattle.permutation_images.specs.Laws.Contracts.{Movable, Fixes, fresh};

use points::{Clause, Point};

// Whether v is one of 1 to n and not in the set of those seen.
fn fresh(n: u32, seen: Point, v: u32) -> bool
    ensures { result ≡ fresh n seen v }
{
    1 <= v && v <= n && !points::member(seen, v - 1)
}

// Whether the bytes are each of 1 to n exactly once. One step a byte. Refusal 10 sees to it that a point has n digits.
pub fn is_permutation(n: u32, e: &[u8]) -> bool
    requires { n ≤ point_digits }
    ensures { result ≡ is_permutation n (record { images = e.now }) }
{
    if e.len() != n as usize {
        return false;
    }
    let mut seen = points::EMPTY;
    for &image in e {
        let v = image as u32;
        if !fresh(n, seen, v) {
            return false;
        }
        seen = points::flip(seen, v - 1);
    }
    true
}

// Where a permutation sends the variables of a set, from that of bit `first` on: one step for each of these, whether it
// is in the set or not. `moved` sees to what it requires.
fn moved_from(e: &[u8], first: usize, s: Point) -> Point
    requires { Movable e.now × (first ≤ length e.now) }
    ensures { result ≡ moved (drop first e.now) (s / 2 ^ first) }
{
    let mut r = points::EMPTY;
    for i in (first..e.len()).rev() {
        let from = i as u32;
        let to = e[i] as u32 - 1;
        r = points::carry(r, s, from, to);
    }
    r
}

// How many variables of a set go one by one: beyond so many, one pass over all that follow takes less time.
const SINGLE: u32 = 8;

// Where a permutation sends the variables of a set, lowest variable first: one step each for the first eight, and for
// what is left of a larger set a pass over those behind them. Nothing is counted first: that would take a fifth of the
// time where a set has one or two. Refusal 11 sees to what it requires.
pub fn moved(e: &[u8], s: Point) -> Point
    requires { Movable e.now }
    ensures { result ≡ moved e.now s }
{
    let n = e.len() as u32;
    let mut r = points::EMPTY;
    let mut left = s;
    let mut v = points::next_variable(left);
    let mut taken = 0;
    while v < n {
        if SINGLE <= taken {
            let rest = moved_from(e, v as usize, left);
            return points::union(rest, r);
        }
        let image = e[v as usize] - 1;
        r = points::with_variable(r, image as u32);
        left = points::flip(left, v);
        v = points::next_variable(left);
        taken += 1;
    }
    r
}

// The set r, with the variable of bit v where the image of that is its own number.
fn with_fixed(r: Point, v: u32, image: u32) -> Point
    requires { v < point_digits }
    ensures { result ≡ cond (eqb image (v + 1)) (bit_or r (2 ^ v)) r }
{
    if image == v + 1 {
        points::with_variable(r, v)
    } else {
        r
    }
}

// The set of the variables that a permutation sends to themselves. One step a variable. Refusal 11 sees to what it
// requires.
pub fn fixed(e: &[u8]) -> Point
    requires { Movable e.now }
    ensures { Fixes e.now (length e.now) result }
{
    let mut r = points::EMPTY;
    for (i, &image) in e.iter().enumerate() {
        r = with_fixed(r, i as u32, image as u32);
    }
    r
}

// The image of a point, by its definition. Nothing calls it today: the search and the checker turn the image of one
// point into that of the next; it is for a point of which no neighbour's image is at hand.
pub fn image_of_point(e: &[u8], x: Point) -> Point
    requires { Movable e.now }
    ensures { result ≡ image_of_point (record { images = e.now }) x }
{
    moved(e, x)
}

// The image of a set of variables, of which those in `fixed` stay: one step for each of the others, and for more than
// eight of them a pass over the variables behind. Refusal 11 sees to what it requires.
pub fn image_of_set(e: &[u8], fixed: Point, s: Point) -> Point
    requires { Movable e.now × Fixes e.now (length e.now) fixed }
    ensures { result ≡ moved e.now s }
{
    let staying = points::common(s, fixed);
    let leaving = points::differing(s, staying);
    let arrived = moved(e, leaving);
    points::union(staying, arrived)
}

// The image of a clause; `fixed` has variables that the permutation sends to themselves.
pub fn image_of_clause(e: &[u8], fixed: Point, c: Clause) -> Clause
    requires { Movable e.now × Fixes e.now (length e.now) fixed }
    ensures { clause_of result ≡ image_of_clause (record { images = e.now }) (clause_of c) }
{
    Clause {
        positive: image_of_set(e, fixed, c.positive),
        negative: image_of_set(e, fixed, c.negative),
    }
}

// Permutations as they lie in bytes without gaps, `variables` bytes each.
#[derive(Clone, Copy)]
pub struct Permutations<'a> {
    pub variables: u32,
    pub count: u32,
    pub images: &'a [u8],
}

impl<'a> Permutations<'a> {
    // The permutation of number i + 1.
    pub fn at(self, i: usize) -> &'a [u8]
        requires { i * self.variables + self.variables ≤ length self.images.now }
        ensures { result.now ≡ take self.entry.variables (drop (i * self.entry.variables) self.entry.images.now) }
    {
        let n = self.variables as usize;
        let start = i * n;
        &self.images[start..start + n]
    }
}

// Points and clauses, with the leaf functions on them. Outside this crate no operator touches a point, but for the
// hash in `point_index::head_of` and the bytes of a certificate.
#![tactic(auto)]

ghost use Rattle.std.specs.Prelude.{◌≡◌, ◌<◌, ◌*◌, ◌/◌, ◌%◌, ◌^◌, eqb, ltb};
ghost use Rattle.std.specs.Int.Bits.{bit_and, bit_or, bit_xor};
ghost use Rattle.math.specs.Bits.{bit, flip};
ghost use Rattle.points.specs.Points.{point_digits, satisfies, distance, listed};
ghost use Rattle.points.specs.Laws.Contracts.{NextVariable, clause_of};

// A point (01: choice), or a set of variables: bit i - 1 for variable i.
pub type Point = u64;

// The point of which every digit is 0; as a set the empty one.
pub const EMPTY: Point = 0;

// How many digits a point has: so many variables there can be at most, whatever the limit of n is.
pub const DIGITS: u32 = 64;

// A slot's depth: how many flips lie between the target and its point.
pub type Depth = u32;

// A clause (01: rule) by value.
#[derive(Clone, Copy, PartialEq, Eq)]
pub struct Clause {
    pub positive: Point,
    pub negative: Point,
}

// Whether two points are equal.
pub fn same(x: Point, y: Point) -> bool
    ensures { result ≡ eqb x y }
{
    x == y
}

// Whether x is smaller than y as a number.
pub fn less(x: Point, y: Point) -> bool
    ensures { result ≡ ltb x y }
{
    x < y
}

// Whether x has no bit at n or above.
pub fn below(x: Point, n: u32) -> bool
    ensures { result ≡ ltb x (2 ^ n) }
{
    if DIGITS <= n {
        return true;
    }
    x >> n == 0
}

// The point with the variable of bit v flipped.
pub fn flip(x: Point, v: u32) -> Point
    requires { v < point_digits }
    ensures { result ≡ flip x v }
{
    let mask: Point = 1 << v;
    x ^ mask
}

// Whether a set has the variable of bit v.
pub fn member(s: Point, v: u32) -> bool
    ensures { result ≡ bit s v }
{
    if DIGITS <= v {
        return false;
    }
    (s >> v) % 2 == 1
}

// The set r, with the variable of bit v where the set s has that of bit i: one step of moving s by a permutation.
pub fn carry(r: Point, s: Point, i: u32, v: u32) -> Point
    requires { (i < point_digits) × (v < point_digits) }
    ensures { result ≡ bit_or (s / 2 ^ i % 2 * 2 ^ v) r }
{
    let digit = (s >> i) % 2;
    let moved = digit << v;
    moved | r
}

// The set with the variable of bit v as well.
pub fn with_variable(s: Point, v: u32) -> Point
    requires { v < point_digits }
    ensures { result ≡ bit_or s (2 ^ v) }
{
    let mask: Point = 1 << v;
    s | mask
}

// F1: the lowest variable of a set, as its bit, by trailing zeros; `DIGITS` for the empty set.
pub fn next_variable(s: Point) -> u32
    ensures { NextVariable s result }
{
    u64::trailing_zeros(s)
}

// The set of the variables in which two points differ.
pub fn differing(x: Point, y: Point) -> Point
    ensures { result ≡ bit_xor x y }
{
    x ^ y
}

// F1: the number of variables in which two points differ, by the count of ones.
pub fn distance(x: Point, y: Point) -> u32
    ensures { result ≡ distance point_digits x y }
{
    u64::count_ones(x ^ y)
}

// Whether a point satisfies a clause: whether one of its literals is met.
pub fn satisfies(c: Clause, x: Point) -> bool
    ensures { result ≡ satisfies (clause_of c) x }
{
    (x & c.positive) | ((x ^ c.negative) & c.negative) != 0
}

// The set of the variables that a clause lists.
pub fn listed(c: Clause) -> Point
    ensures { result ≡ listed (clause_of c) }
{
    c.positive | c.negative
}

// The set of the variables that two sets have in common.
pub fn common(s: Point, t: Point) -> Point
    ensures { result ≡ bit_and s t }
{
    s & t
}

// The set of the variables that one of two sets has.
pub fn union(s: Point, t: Point) -> Point
    ensures { result ≡ bit_or s t }
{
    s | t
}

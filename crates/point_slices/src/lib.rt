// Points, clauses and numbers in lent slices. A slice of points has one word a point, and the clauses lie in two
// parallel slices. Outside this crate no index is a place of a word in a slice of points, but where
// slots are structs (`slot_columns`, `slot_prefixes`).
#![tactic(auto)]

ghost use Rattle.std.specs.Prelude.{[], ◌≡◌, ◌≤◌, ◌<◌, length, get_or, set, take};
ghost use Rattle.point_slices.specs.Laws.Contracts.{clauses_lent};
ghost use Rattle.points.specs.Laws.Contracts.{clause_of};
ghost use Rattle.points.specs.Points.{satisfies, first_falsified, numbered, number_of, empty_clause};
ghost use Rattle.point_slices.specs.Laws.SliceLaws.{falsified_from};
ghost use Rattle.point_slices.specs.Slices.{points_of, rest_of};

use points::{Clause, Point};

// How many points a slice holds.
pub fn point_count(points: &[u64]) -> usize
    ensures { result ≡ length (points_of points.now) }
{
    points.len()
}

// The point at index i, 0 past the end.
pub fn point_at(points: &[u64], i: usize) -> Point
    ensures { result ≡ get_or (points_of points.now) i 0 }
{
    points.get(i).copied().unwrap_or(points::EMPTY)
}

// Stores a point at index i; past the end nothing is stored.
pub fn put_point(points: &mut [u64], i: usize, x: Point)
    ensures { (points_of points.new ≡ set (points_of points.old) i x)
        × (rest_of points.new ≡ rest_of points.old) }
{
    if i < points.len() {
        points[i] = x;
    }
}

// The part of a slice that holds its first k points. Callers have seen to it that there are so many.
pub fn first_points(points: &[u64], k: usize) -> &[u64]
    requires { k ≤ length (points_of points.now) }
    ensures { (points_of result.now ≡ take k (points_of points.now)) × (rest_of result.now ≡ []) }
{
    &points[..k]
}

// The number at index i, 0 past the end.
pub fn number_at(numbers: &[u32], i: usize) -> u32
    ensures { result ≡ get_or numbers.now i 0 }
{
    numbers.get(i).copied().unwrap_or(0)
}

// Stores a value at index i; past the end nothing is stored.
pub fn put<T: Copy>(values: &mut [T], i: usize, value: T)
    ensures { values.new ≡ set values.old i value }
{
    if i < values.len() {
        values[i] = value;
    }
}

// The clauses that two parallel slices lend, of positive and of negative literals: as many as the shorter one has.
#[derive(Clone, Copy)]
pub struct Clauses<'a> {
    pub positive: &'a [u64],
    pub negative: &'a [u64],
}

impl Clauses<'_> {
    // How many there are.
    pub fn count(self) -> usize
        ensures { result ≡ length (clauses_lent self.entry) }
    {
        self.positive.len().min(self.negative.len())
    }

    // The clause at index i, the one without literals past the end.
    pub fn at(self, i: usize) -> Clause
        ensures { clause_of result ≡ get_or (clauses_lent self.entry) i empty_clause }
    {
        if i < self.positive.len() && i < self.negative.len() {
            Clause {
                positive: self.positive[i],
                negative: self.negative[i],
            }
        } else {
            Clause {
                positive: points::EMPTY,
                negative: points::EMPTY,
            }
        }
    }

    // The clause at index i, one of those that there are: scans of the clauses read them here, without a test of the index.
    fn within(self, i: usize) -> Clause
        requires { i < length (clauses_lent self) }
        ensures { clause_of result ≡ get_or (clauses_lent self.entry) i empty_clause }
    {
        Clause {
            positive: self.positive[i],
            negative: self.negative[i],
        }
    }

    // Whether the point satisfies the clause at index i.
    fn satisfied_at(self, i: usize, x: Point) -> bool
        requires { i < length (clauses_lent self) }
        ensures { result ≡ satisfies (get_or (clauses_lent self.entry) i empty_clause) x }
    {
        points::satisfies(self.within(i), x)
    }

    // How many of the first clauses can be skipped, since the point satisfies them: four are tested together, so that no
    // step waits for the one before, until one of four is falsified or fewer are left.
    fn satisfied_first(self, x: Point) -> usize
        ensures { falsified_from (clauses_lent self.entry) x 0 ≡ falsified_from (clauses_lent self.entry) x result }
    {
        let fours = self.count() / 4;
        for k in 0..fours {
            let i = 4 * k;
            let a = self.satisfied_at(i, x);
            let b = self.satisfied_at(i + 1, x);
            let c = self.satisfied_at(i + 2, x);
            let d = self.satisfied_at(i + 3, x);
            let met = (a & b) & (c & d);
            if !met {
                return i;
            }
        }
        4 * fours
    }

    // The number, from 1, of the first clause from index `from` on that the point falsifies; 0 where there is none. One
    // step a clause.
    fn falsified_from(self, from: usize, x: Point) -> usize
        ensures { result ≡ falsified_from (clauses_lent self.entry) x from }
    {
        for i in from..self.count() {
            if !self.satisfied_at(i, x) {
                return i + 1;
            }
        }
        0
    }

    // The number, from 1, of the first clause that the point falsifies; 0 where it satisfies all: so a slot holds it. One
    // step for four clauses, and at most four more.
    pub fn first_falsified(self, x: Point) -> usize
        ensures { result ≡ number_of (first_falsified (numbered (clauses_lent self.entry)) x) }
    {
        self.falsified_from(self.satisfied_first(x), x)
    }
}

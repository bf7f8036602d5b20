// Whether a permutation keeps the clauses and so is a symmetry of the formula, with guesses where an image may stand.
#![tactic(auto)]

ghost use Rattle.std.specs.Prelude.{◌≡◌, ◌≤◌, ◌<◌, length, get_or, IfSome};
ghost use Rattle.math.specs.Lists.{any, first_failing, place_of};
ghost use Rattle.point_slices.specs.Laws.Contracts.{clauses_lent};
ghost use Rattle.points.specs.Laws.Contracts.{clause_of};
ghost use Rattle.points.specs.Points.{numbered, empty_clause};
ghost use Rattle.permutation_theory.specs.Permutations.{same_clause, image_among, keeps};
ghost use Rattle.permutation_images.specs.Laws.Contracts.{Movable, Fixes, Listed, permutations_of};

use crate::guesses::{FEW_CLAUSES, FEW_LINKS, Guesses, MOST_LINKS, guessed, make_guesses};
use permutation_images::{Permutations, fixed, image_of_clause};
use point_slices::Clauses;
use points::{Clause, Point};

mod guesses;

// Whether a clause is among those of the slices, whatever the guesses are. Where none is right, one step a clause.
fn has_clause(clauses: Clauses<'_>, guesses: Guesses<'_>, c: Clause) -> bool
    ensures { result ≡ any (same_clause (clause_of c)) (clauses_lent clauses.entry) }
{
    if guessed(clauses, guesses, c) {
        return true;
    }
    for at in 0..clauses.count() {
        if c == clauses.at(at) {
            return true;
        }
    }
    false
}

// Whether the image of the clause at index i is among the clauses; `fixed` has variables that the permutation sends to
// themselves. A clause of these alone is its own image, and no guess is asked for. `keeps` sees to what it requires.
fn image_stands(
    clauses: Clauses<'_>,
    guesses: Guesses<'_>,
    e: &[u8],
    fixed: Point,
    i: usize,
) -> bool
    requires { Movable e.now × Fixes e.now (length e.now) fixed × (i < length (clauses_lent clauses)) }
    ensures { result ≡ image_among (clauses_lent clauses.entry) (record { images = e.now })
        (get_or (clauses_lent clauses.entry) i empty_clause) }
{
    let c = clauses.at(i);
    let listed = points::listed(c);
    let staying = points::common(listed, fixed);
    if points::same(staying, listed) {
        return true;
    }
    has_clause(clauses, guesses, image_of_clause(e, fixed, c))
}

// Whether the image of each clause is among the clauses: n steps for the permutation; then, for each clause that it
// changes, one step for each literal moved, or 2n where these are many, and about one comparison where the guesses have
// its image, never more than 129 and one a clause.
fn keeps(clauses: Clauses<'_>, guesses: Guesses<'_>, e: &[u8]) -> bool
    requires { Movable e.now }
    ensures { result ≡ keeps (numbered (clauses_lent clauses.entry)) (record { images = e.now }) }
{
    let still = fixed(e);
    for i in 0..clauses.count() {
        if !image_stands(clauses, guesses, e, still, i) {
            return false;
        }
    }
    true
}

// The index of the first of the listed permutations that does not keep the clauses, with guesses that were made before,
// whatever they are.
fn first_not_kept(
    permutations: Permutations<'_>,
    clauses: Clauses<'_>,
    guesses: Guesses<'_>,
) -> Option<usize>
    requires { Listed permutations.variables permutations.count permutations.images.now }
    ensures first { place_of result ≡ first_failing (keeps (numbered (clauses_lent clauses.entry)))
        (permutations_of permutations.entry) }
    ensures listed { IfSome result (λ j. j < permutations.entry.count) }
{
    for j in 0..permutations.count as usize {
        if !keeps(clauses, guesses, permutations.at(j)) {
            return Some(j);
        }
    }
    None
}

// The same, with guesses of its own, half of whose links are heads. The array stays out of the caller's frame: as a rule
// the smaller one suffices.
#[inline(never)]
fn with_guesses<const LINKS: usize>(
    permutations: Permutations<'_>,
    clauses: Clauses<'_>,
) -> Option<usize>
    requires listed { Listed permutations.variables permutations.count permutations.images.now }
    requires few { LINKS ≤ 16384 }
    ensures first { place_of result ≡ first_failing (keeps (numbered (clauses_lent clauses.entry)))
        (permutations_of permutations.entry) }
    ensures listed { IfSome result (λ j. j < permutations.entry.count) }
{
    let mut links = [0u32; LINKS];
    let heads = LINKS / 2;
    make_guesses(clauses, &mut links, heads);
    let guesses = Guesses {
        heads,
        links: &links,
    };
    first_not_kept(permutations, clauses, guesses)
}

// E3: the index of the first of the listed permutations that does not keep the clauses. Guesses are made once for all: 4
// KiB of the stack for few clauses, else 64. Refusal 11 sees to what it requires.
pub fn first_non_symmetry(permutations: Permutations<'_>, clauses: Clauses<'_>) -> Option<usize>
    requires { Listed permutations.variables permutations.count permutations.images.now }
    ensures first { place_of result ≡ first_failing (keeps (numbered (clauses_lent clauses.entry)))
        (permutations_of permutations.entry) }
    ensures listed { IfSome result (λ j. j < permutations.entry.count) }
{
    if clauses.count() <= FEW_CLAUSES {
        with_guesses::<FEW_LINKS>(permutations, clauses)
    } else {
        with_guesses::<MOST_LINKS>(permutations, clauses)
    }
}

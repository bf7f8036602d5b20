// Refusal 18: whether each flip of a point by a variable of its clause is covered by the points, modulo the listed
// permutations.
#![tactic(auto)]

ghost use Rattle.std.specs.Prelude.{◌≡◌, ◌≤◌, ◌<◌, ◌^◌, length, take};
ghost use Rattle.math.specs.Bits.{flip};
ghost use Rattle.point_slices.specs.Laws.Contracts.{clauses_lent};
ghost use Rattle.points.specs.Points.{numbered};
ghost use Rattle.point_slices.specs.Slices.{points_of};
ghost use Rattle.permutation_theory.specs.Permutations.{covered};
ghost use Rattle.permutation_images.specs.Laws.Contracts.{permutations_of};
ghost use Rattle.point_index.specs.Laws.Looking.{indexed_points};
ghost use Rattle.permutation_coverage.specs.Laws.Coverage.{Permuting, Imaged, Staying};
ghost use Rattle.formula.specs.Refusals.{fault_of};
ghost use Rattle.certificate.specs.Rows.{clause_numbered};
ghost use Rattle.check_flips.specs.Flips.{flips_fault};
ghost use Rattle.check_flips.specs.Laws.Loops.{listed_by, all_flips, Testable, Follows};

use check_falsified::clause_numbered;
use formula::Formula;
use formula::reasons::{Reason, Refusal};
use permutation_coverage::{image_covered, next_images, staying_sets};
use permutation_images::Permutations;
use point_index::Index;
use point_slices::{Clauses, first_points, number_at, point_at};
use points::Point;

// The set of the variables that the clause with the number k lists; the empty set where no clause has it.
fn variables_of(clauses: Clauses<'_>, k: u32) -> Point
    ensures { result ≡ listed_by (clause_numbered (numbered (clauses_lent clauses.entry)) k) }
{
    match clause_numbered(clauses, k) {
        None => points::EMPTY,
        Some(c) => points::listed(c),
    }
}

// Whether x with variable v flipped is covered by the points of the index; `moved` has the images of `seen`, and `stay`
// sets of variables that stay, or none. Where the flip itself is among the points that is one look-up. Else the images
// are turned into those of x, at most one step for each permutation and each variable in which the two points differ,
// and at most one look-up each follows; a look-up takes at most n + 1 comparisons. `flips_covered` hands on what it
// requires.
fn flip_passes(
    permutations: Permutations<'_>,
    index: Index<'_>,
    stay: &[u64],
    moved: &mut [u64],
    seen: &mut Point,
    x: Point,
    v: u32,
) -> bool
    requires { Follows permutations index (points_of stay.now) (points_of moved.old) seen.old x
        × (v < permutations.variables) }
    ensures { (result ≡ covered (permutations_of permutations.entry) (indexed_points index.entry) (flip x v))
        × Imaged permutations.entry.variables permutations.entry.count permutations.entry.images.now seen.new
        (points_of moved.new) }
{
    if index.contains(permutations.variables, points::flip(x, v)) {
        return true;
    }
    next_images(permutations, stay, moved, *seen, x);
    *seen = x;
    image_covered(permutations, index, moved, x, v)
}

// Whether each flip of x by a variable of the set is covered by the points of the index, variables lowest first: at most
// n flips. `flips_refusal` sees to what it requires.
fn flips_covered(
    permutations: Permutations<'_>,
    index: Index<'_>,
    stay: &[u64],
    moved: &mut [u64],
    seen: &mut Point,
    x: Point,
    listed: Point,
) -> bool
    requires { Follows permutations index (points_of stay.now) (points_of moved.old) seen.old x
        × (listed < 2 ^ permutations.variables) }
    ensures { (result ≡ all_flips (covered (permutations_of permutations.entry) (indexed_points index.entry))
        permutations.entry.variables x listed)
        × Imaged permutations.entry.variables permutations.entry.count permutations.entry.images.now seen.new
        (points_of moved.new) }
{
    let mut left = listed;
    let mut v = points::next_variable(left);
    while v < permutations.variables {
        if !flip_passes(permutations, index, stay, moved, seen, x, v) {
            return false;
        }
        left = points::flip(left, v);
        v = points::next_variable(left);
    }
    true
}

// For how many points at most no sets of the variables that stay are made: it would take longer than they save.
const FEW: usize = 1024;

// Stores for each permutation the set of the variables that it sends to themselves, and says how many of the sets to go
// by: all, or none where the points are few or the permutations move more than half of the variables. At most n steps
// for each permutation.
fn sets_at_hand(permutations: Permutations<'_>, stay: &mut [u64], count: usize) -> usize
    requires { Permuting permutations.variables permutations.count permutations.images.now
        × (permutations.count ≤ length (points_of stay.old)) }
    ensures { (result ≤ length (points_of stay.new))
        × Staying permutations.entry.variables permutations.entry.count permutations.entry.images.now
        (take result (points_of stay.new)) }
{
    if count <= FEW {
        return 0;
    }
    let total = staying_sets(permutations, stay);
    let end = permutations.count as usize;
    let all = end * permutations.variables as usize;
    if total < all / 2 { 0 } else { end }
}

// R18: refusal 18, of the points of the index and as many numbers. For each point at most n · (permutations + 1)
// look-ups, each of at most n + 1 comparisons; where a flip itself is none of the points, also the images of the point,
// at most permutations · n steps. Refusals 10, 11 and 16 see to what it requires.
pub fn flips_refusal(
    permutations: Permutations<'_>,
    clauses: Clauses<'_>,
    index: Index<'_>,
    falsified: &[u32],
) -> Result<(), Refusal>
    requires { Testable permutations (clauses_lent clauses) index }
    ensures { fault_of result ≡ flips_fault permutations.entry.variables (numbered (clauses_lent clauses.entry))
        (permutations_of permutations.entry) (indexed_points index.entry) falsified.now }
{
    let mut stay = [0u64; Formula::MAX_PERMUTATIONS as usize];
    let sets = sets_at_hand(permutations, &mut stay, index.count);
    let known = first_points(&stay, sets);
    let mut moved = [0u64; Formula::MAX_PERMUTATIONS as usize];
    let mut seen = points::EMPTY;
    for i in 0..index.count {
        let x = point_at(index.points, i);
        let listed = variables_of(clauses, number_at(falsified, i));
        if !flips_covered(permutations, index, known, &mut moved, &mut seen, x, listed) {
            return Err(Refusal {
                reason: Reason::CertificateFlips,
                place: i + 1,
            });
        }
    }
    Ok(())
}

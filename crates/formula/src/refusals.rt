// Refusals 10, 11 and 12: each a function that says which it is, and where.
ghost use Rattle.std.specs.Prelude.{List, ◌≡◌, ℕ, ◌*◌, ◌≤◌, length};
ghost use Rattle.formula.specs.Laws.Contracts.{formula_with, formula_lent, problem_fault};
ghost use Rattle.point_slices.specs.Laws.Contracts.{clauses_lent};
ghost use Rattle.points.specs.Points.{numbered};
ghost use Rattle.point_slices.specs.Slices.{points_of, slices_lent};
ghost use Rattle.permutation_images.specs.Laws.Contracts.{Listed, permutations_of};
ghost use Rattle.formula.specs.Limits.{max_variables, max_permutations};
ghost use Rattle.formula.specs.Refusals.{all_below, fits, clauses_fault, formula_fault, permutation_fault};
ghost use Rattle.formula.specs.Refusals.{symmetry_fault, fault_of};

use crate::reasons::{Reason, Refusal};
use crate::view::FormulaView;
use crate::{Formula, Numbers};
use permutation_images::{Permutations, is_permutation};
use permutation_symmetry::first_non_symmetry;
use point_slices::{Clauses, point_at, point_count};

// Whether no number of the slice has a bit at n or above: the union of all is tested. One step a number; none where
// numbers have no such bit.
fn all_below(xs: &[u64], n: u32) -> bool
    ensures { result ≡ all_below n (points_of xs.now) }
{
    if points::DIGITS <= n {
        return true;
    }
    let mut all = points::EMPTY;
    for i in 0..point_count(xs) {
        all = points::union(all, point_at(xs, i));
    }
    points::below(all, n)
}

// Whether n is within its limits, and both clause slices are as long as they should be and have no bit at n or above.
fn fits(f: Numbers, clauses: Clauses<'_>) -> bool
    ensures { result ≡ fits f.variables f.clauses (slices_lent clauses.entry) }
{
    let n = f.variables;
    if n < 1 || Formula::MAX_VARIABLES < n || Formula::MAX_CLAUSES < f.clauses {
        return false;
    }
    let wanted = f.clauses as usize;
    if point_count(clauses.positive) != wanted || point_count(clauses.negative) != wanted {
        return false;
    }
    all_below(clauses.positive, n) && all_below(clauses.negative, n)
}

// What refusal 10 is: it has no place.
const UNFIT: Refusal = Refusal {
    reason: Reason::Formula,
    place: 0,
};

// Refusal 10 without the target; no image matters to it.
pub fn clauses_refusal(f: Numbers, clauses: Clauses<'_>) -> Result<(), Refusal>
    ensures { (images : List ℕ) → fault_of result ≡ clauses_fault (formula_with f images) (slices_lent clauses.entry) }
{
    if fits(f, clauses) { Ok(()) } else { Err(UNFIT) }
}

// Refusal 10; no image matters to it.
pub fn formula_refusal(f: Numbers, clauses: Clauses<'_>) -> Result<(), Refusal>
    ensures { (images : List ℕ) → fault_of result ≡ formula_fault (formula_with f images) (slices_lent clauses.entry) }
{
    if fits(f, clauses) && points::below(f.target, f.variables) {
        Ok(())
    } else {
        Err(UNFIT)
    }
}

// Refusal 11, of permutations of n bytes each. One step an image. Refusal 10, or 15, sees to what it requires.
pub fn permutations_refusal(permutations: Permutations<'_>) -> Result<(), Refusal>
    requires { (permutations.variables ≤ max_variables)
        × (permutations.count ≤ max_permutations → permutations.count * permutations.variables ≤ length permutations.images.now) }
    ensures { fault_of result ≡ permutation_fault permutations.entry.variables (permutations_of permutations.entry) }
{
    if Formula::MAX_PERMUTATIONS < permutations.count {
        return Err(Refusal {
            reason: Reason::Permutation,
            place: 17,
        });
    }
    for i in 0..permutations.count as usize {
        if !is_permutation(permutations.variables, permutations.at(i)) {
            return Err(Refusal {
                reason: Reason::Permutation,
                place: i + 1,
            });
        }
    }
    Ok(())
}

// Refusal 12. For each permutation the image of each clause that it changes takes about one comparison where the guesses
// have it, and never more than 129 and one with each clause: with 16 permutations and 4,096 clauses at most 16 · 4,096 ·
// 4,225. No permutation costs nothing. Refusals 10 and 11 see to what it requires.
pub fn symmetry_refusal(permutations: Permutations<'_>, clauses: Clauses<'_>) -> Result<(), Refusal>
    requires { Listed permutations.variables permutations.count permutations.images.now }
    ensures { fault_of result ≡ symmetry_fault (numbered (clauses_lent clauses.entry)) (permutations_of permutations.entry) }
{
    if permutations.count < 1 {
        return Ok(());
    }
    match first_non_symmetry(permutations, clauses) {
        None => Ok(()),
        Some(j) => Err(Refusal {
            reason: Reason::Symmetry,
            place: j + 1,
        }),
    }
}

// Refusals 10, 11 and 12, in this order.
pub fn problem_refusal(f: FormulaView<'_>, clauses: Clauses<'_>) -> Result<(), Refusal>
    ensures { fault_of result ≡ problem_fault (formula_lent f.entry) (slices_lent clauses.entry) }
{
    let permutations = f.permutations();
    formula_refusal(f.numbers, clauses)?;
    permutations_refusal(permutations)?;
    symmetry_refusal(permutations, clauses)
}

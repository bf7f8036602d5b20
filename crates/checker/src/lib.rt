// The checker (01: 'Checker'): whether a file is a certificate that no point satisfies the clauses.
#![tactic(auto)]

ghost use Rattle.std.specs.Prelude.{List, ◌≡◌, ℕ, ◌≤◌};
ghost use Rattle.point_slices.specs.Laws.Contracts.{clauses_lent};
ghost use Rattle.points.specs.Points.{numbered};
ghost use Rattle.point_slices.specs.Slices.{slices_lent};
ghost use Rattle.point_theory.specs.Laws.Notions.{ClausesBelow};
ghost use Rattle.formula.specs.Limits.{max_variables};
ghost use Rattle.formula.specs.Laws.Contracts.{formula_with};
ghost use Rattle.formula.specs.Refusals.{fault_of};
ghost use Rattle.certificate.specs.Certificate.{file_permutations, file_points, file_numbers};
ghost use Rattle.checker.specs.Contract.{CheckedAs};
ghost use Rattle.checker.specs.Laws.Parts.{bodies_fault, file_rows, Readable};

use certificate::Contents;
use check_entries::{Bodies, decoded_refusal};
use formula::reasons::{Reason, Refusal};
use formula::refusals::{clauses_refusal, permutations_refusal, symmetry_refusal};
use formula::{Formula, Numbers};
use permutation_images::Permutations;
use point_slices::Clauses;

// C8, F4: refusals 11, 12, 16, 17 and 18, each body handed on as its own part of the file. K2: the permutations are the
// file's. `file_refusal` sees to what it requires.
fn bodies_refusal(c: Contents, clauses: Clauses<'_>, file: &[u8]) -> Result<(), Refusal>
    requires { Readable c (clauses_lent clauses) file.now }
    ensures { fault_of result ≡ bodies_fault c.variables (numbered (clauses_lent clauses.entry))
        (file_permutations file.now) (file_points file.now) (file_numbers file.now) }
{
    let second = c.points_at as usize;
    let third = c.numbers_at as usize;
    let permutations = Permutations {
        variables: c.variables,
        count: c.permutations,
        images: &file[c.permutations_at as usize..second],
    };
    permutations_refusal(permutations)?;
    symmetry_refusal(permutations, clauses)?;
    if Formula::MAX_SLOTS < c.points {
        return Err(Refusal {
            reason: Reason::CertificatePoints,
            place: 0,
        });
    }
    let bodies = Bodies {
        points: &file[second..third],
        falsified: &file[third..],
        count: c.points as usize,
    };
    decoded_refusal(permutations, clauses, bodies)
}

// R15: refusals 14 and 15, then those of the bodies. Refusal 10 sees to what it requires.
fn file_refusal(f: Numbers, clauses: Clauses<'_>, file: &[u8]) -> Result<(), Refusal>
    requires { (f.variables ≤ max_variables) × ClausesBelow f.variables (numbered (clauses_lent clauses)) }
    ensures { fault_of result ≡ file_rows f.variables f.clauses (clauses_lent clauses.entry) file.now }
{
    let c = certificate::read(file)?;
    if c.variables != f.variables || c.clauses != f.clauses {
        return Err(Refusal {
            reason: Reason::CertificateSizes,
            place: 0,
        });
    }
    bodies_refusal(c, clauses, file)
}

// Checks a file for the clauses of a formula by its numbers: no image matters to it.
pub fn check_numbers(f: Numbers, clauses: Clauses<'_>, file: &[u8]) -> Result<(), Refusal>
    ensures { (images : List ℕ) → CheckedAs (formula_with f images) (slices_lent clauses.entry) file.now result }
{
    clauses_refusal(f, clauses)?;
    file_refusal(f, clauses, file)
}

// D2.3, K1, N6: checks a file for the clauses of a formula, whose target and permutations it does not look at.
pub fn check(f: Formula, clauses: Clauses<'_>, file: &[u8]) -> Result<(), Refusal>
    ensures { CheckedAs f (slices_lent clauses.entry) file.now result }
{
    check_numbers(f.view().numbers, clauses, file)
}

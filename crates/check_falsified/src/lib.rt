// Refusal 17, for the writer and the checker: whether each point has the number of a clause that it falsifies.
// Document 002 calls the map from points to such clauses a transport function.
#![tactic(auto)]

ghost use Rattle.std.specs.Prelude.{◌≡◌};
ghost use Rattle.point_slices.specs.Laws.Contracts.{clauses_lent};
ghost use Rattle.points.specs.Points.{numbered};
ghost use Rattle.point_slices.specs.Slices.{points_of};
ghost use Rattle.formula.specs.Refusals.{fault_of};
ghost use Rattle.certificate.specs.Rows.{clause_numbered, falsifies, number_passes, numbers_fault};
ghost use Rattle.check_falsified.specs.Laws.Contracts.{clause_found};

use formula::reasons::{Reason, Refusal};
use point_slices::{Clauses, number_at, point_at};
use points::{Clause, Point};

// The clause with the number k, where there is one.
pub fn clause_numbered(clauses: Clauses<'_>, k: u32) -> Option<Clause>
    ensures { clause_found result ≡ clause_numbered (numbered (clauses_lent clauses.entry)) k }
{
    let k = k as usize;
    if 0 < k && k <= clauses.count() {
        Some(clauses.at(k - 1))
    } else {
        None
    }
}

// Whether some clause has the number k, and the point falsifies it.
fn falsifies(clauses: Clauses<'_>, k: u32, x: Point) -> bool
    ensures { result ≡ falsifies (clause_numbered (numbered (clauses_lent clauses.entry)) k) x }
{
    match clause_numbered(clauses, k) {
        None => false,
        Some(c) => !points::satisfies(c, x),
    }
}

// Whether the point at index i falsifies the clause that the number at index i names.
fn number_passes(clauses: Clauses<'_>, points: &[u64], falsified: &[u32], i: usize) -> bool
    ensures { result ≡ number_passes (numbered (clauses_lent clauses.entry))
        (points_of points.now) falsified.now i }
{
    falsifies(clauses, number_at(falsified, i), point_at(points, i))
}

// R17: refusal 17, of the first `count` points and numbers: one step a point.
pub fn numbers_refusal(
    clauses: Clauses<'_>,
    points: &[u64],
    falsified: &[u32],
    count: usize,
) -> Result<(), Refusal>
    ensures { fault_of result ≡ numbers_fault (numbered (clauses_lent clauses.entry))
        count (points_of points.now) falsified.now }
{
    for i in 0..count {
        if !number_passes(clauses, points, falsified, i) {
            return Err(Refusal {
                reason: Reason::CertificateNumbers,
                place: i + 1,
            });
        }
    }
    Ok(())
}

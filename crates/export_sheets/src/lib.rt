// The writer of texts for a formula as numbers and lent bytes, for programs in other languages.
#![tactic(auto)]

ghost use Rattle.point_slices.specs.Slices.{slices_lent};
ghost use Rattle.dimacs_writer.specs.Contract.{WroteSheet};
ghost use Rattle.export_formulas.specs.Formulas.{formula_from};

use dimacs_writer::write_lent;
use export_formulas::{formula_view, whole_view};
use formula::reasons::Refusal;
use formula::{Formula, Numbers};
use point_slices::Clauses;

// The writer for the formula that numbers and lent images make.
pub fn sheet_from(
    f: Numbers,
    images: &[u8],
    clauses: Clauses<'_>,
    out: &mut [u8],
) -> Result<usize, Refusal>
    ensures { WroteSheet (formula_from f.variables f.clauses f.target f.permutations images.now)
        (slices_lent clauses.entry) out.old result out.new }
{
    if images.len() < Formula::MAX_IMAGES {
        let mut room = [0u8; Formula::MAX_IMAGES];
        return write_lent(formula_view(f, images, &mut room), clauses, out);
    }
    write_lent(whole_view(f, images), clauses, out)
}

// The writer of texts as an exported function.
ghost use Rattle.point_slices.specs.Slices.{clause_slices};
ghost use Rattle.export_formulas.specs.Formulas.{formula_from};
ghost use Rattle.export_sheets.specs.Sheets.{SheetReturns};

use export_sheets::sheet_from;
use export_words::{WORDS, put_written};
use formula::Numbers;
use point_slices::Clauses;

// The writer of texts, its answer put into the first four words of `reply`. It returns 1; where `reply` has no room it
// returns 0 and changes nothing.
#[unsafe(no_mangle)]
pub extern "C" fn jugbowo_write_sheet(
    variables: u32,
    clauses: u32,
    target: u64,
    permutations: u32,
    images: &[u8],
    positive: &[u64],
    negative: &[u64],
    out: &mut [u8],
    reply: &mut [u64],
) -> u32
    ensures { SheetReturns (formula_from variables clauses target permutations images.now)
        (clause_slices positive.now negative.now) out.old reply.old result
        out.new reply.new }
{
    if reply.len() < WORDS {
        return 0;
    }
    let f = Numbers {
        variables,
        clauses,
        target,
        permutations,
    };
    let lent = Clauses { positive, negative };
    put_written(reply, sheet_from(f, images, lent, out));
    1
}

// The search as an exported function.
ghost use Rattle.point_slices.specs.Slices.{clause_slices, slot_slices};
ghost use Rattle.export_formulas.specs.Formulas.{formula_from};
ghost use Rattle.export_words.specs.Searching.{SearchReturns};

use export_formulas::{formula_view, whole_view};
use export_words::{WORDS, put_found};
use formula::{Formula, Numbers};
use point_slices::Clauses;
use points::Depth;
use search::search_lent;

// The search, its answer put into the first four words of `reply`. It returns 1; where `reply` has no room it returns 0
// and changes nothing.
#[unsafe(no_mangle)]
pub extern "C" fn jugbowo_search(
    variables: u32,
    clauses: u32,
    target: u64,
    permutations: u32,
    images: &[u8],
    positive: &[u64],
    negative: &[u64],
    points: &mut [u64],
    falsified: &mut [u32],
    depths: &mut [Depth],
    reply: &mut [u64],
) -> u32
    ensures { SearchReturns (formula_from variables clauses target permutations images.now)
        (clause_slices positive.now negative.now)
        (slot_slices points.old falsified.old depths.old) reply.old result
        (slot_slices points.new falsified.new depths.new) reply.new }
{
    if reply.len() < WORDS {
        return 0;
    }
    let numbers = Numbers {
        variables,
        clauses,
        target,
        permutations,
    };
    let lent = Clauses { positive, negative };
    if images.len() < Formula::MAX_IMAGES {
        let mut room = [0u8; Formula::MAX_IMAGES];
        let f = formula_view(numbers, images, &mut room);
        let r = search_lent(f, lent, points, falsified, depths);
        put_found(reply, r);
        return 1;
    }
    let f = whole_view(numbers, images);
    let r = search_lent(f, lent, points, falsified, depths);
    put_found(reply, r);
    1
}

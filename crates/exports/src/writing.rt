// The writer of certificates as an exported function.
ghost use Rattle.point_slices.specs.Slices.{clause_slices, slot_slices};
ghost use Rattle.export_formulas.specs.Formulas.{formula_from};
ghost use Rattle.export_words.specs.Writing.{WriteReturns};

use certificate_writer::write_lent;
use export_formulas::{formula_view, whole_view};
use export_words::{WORDS, put_written};
use formula::{Formula, Numbers};
use point_slices::Clauses;
use points::Depth;

// The writer, its answer put into the first four words of `reply`. It returns 1; where `reply` has no room it returns 0
// and changes nothing.
#[unsafe(no_mangle)]
pub extern "C" fn jugbowo_write(
    variables: u32,
    clauses: u32,
    target: u64,
    permutations: u32,
    images: &[u8],
    positive: &[u64],
    negative: &[u64],
    points: &[u64],
    falsified: &[u32],
    depths: &[Depth],
    filled: u32,
    out: &mut [u8],
    reply: &mut [u64],
) -> u32
    ensures { WriteReturns (formula_from variables clauses target permutations images.now)
        (clause_slices positive.now negative.now)
        (slot_slices points.now falsified.now depths.now) filled out.old
        reply.old result out.new reply.new }
{
    if reply.len() < WORDS {
        return 0;
    }
    let numbers = Numbers {
        variables,
        clauses,
        target,
        permutations,
    };
    let lent = Clauses { positive, negative };
    if images.len() < Formula::MAX_IMAGES {
        let mut room = [0u8; Formula::MAX_IMAGES];
        let f = formula_view(numbers, images, &mut room);
        let r = write_lent(f, lent, points, falsified, depths, filled, out);
        put_written(reply, r);
        return 1;
    }
    let f = whole_view(numbers, images);
    let r = write_lent(f, lent, points, falsified, depths, filled, out);
    put_written(reply, r);
    1
}

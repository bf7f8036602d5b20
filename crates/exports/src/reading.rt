// The reader as an exported function.
ghost use Rattle.point_slices.specs.Slices.{clause_slices};
ghost use Rattle.exports.specs.Reading.{ReadReturns};

use dimacs::read_lent;
use export_formulas::put_parsed;
use export_words::WORDS;
use formula::Formula;

// The reader, its answer put into the first four words of `reply`; where the text is read the formula stands beside it,
// its four numbers at the front of `numbers`, its images at the front of `images`. D1.2: "after a refusal each lent
// slice holds what it held before", these two among them. It returns 1; where one of the three has no room it returns 0
// and changes nothing.
#[unsafe(no_mangle)]
pub extern "C" fn jugbowo_read(
    text: &[u8],
    positive: &mut [u64],
    negative: &mut [u64],
    numbers: &mut [u64],
    images: &mut [u8],
    reply: &mut [u64],
) -> u32
    ensures { ReadReturns text.now (clause_slices positive.old negative.old)
        numbers.old images.old reply.old result
        (clause_slices positive.new negative.new) numbers.new images.new
        reply.new }
{
    if reply.len() < WORDS || numbers.len() < WORDS || images.len() < Formula::MAX_IMAGES {
        return 0;
    }
    let mut held = [0u8; Formula::MAX_IMAGES];
    let r = read_lent(text, positive, negative, &mut held);
    put_parsed(numbers, images, reply, r, &held);
    1
}

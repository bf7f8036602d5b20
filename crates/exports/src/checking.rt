// The checker and the readers of certificates as exported functions.
ghost use Rattle.point_slices.specs.Slices.{clause_slices};
ghost use Rattle.certificate.specs.Bytes.{point_width, number_width};
ghost use Rattle.certificate.specs.Certificate.{number_at, image_at};
ghost use Rattle.export_formulas.specs.Formulas.{formula_from};
ghost use Rattle.exports.specs.Checking.{CheckReturns, OpenReturns, EntryReturns};

use certificate::bodies::{image_at, number_at, point_at};
use checker::check_numbers;
use export_words::{CONTENTS, ENTRY, WORDS, put_entry, put_opened, put_verdict};
use formula::Numbers;
use point_slices::Clauses;

// The checker, its answer put into the first four words of `reply`. It returns 1; where `reply` has no room it returns
// 0 and changes nothing.
#[unsafe(no_mangle)]
pub extern "C" fn jugbowo_check(
    variables: u32,
    clauses: u32,
    target: u64,
    permutations: u32,
    images: &[u8],
    positive: &[u64],
    negative: &[u64],
    file: &[u8],
    reply: &mut [u64],
) -> u32
    ensures { CheckReturns (formula_from variables clauses target permutations images.now)
        (clause_slices positive.now negative.now) file.now reply.old result
        reply.new }
{
    if reply.len() < WORDS {
        return 0;
    }
    let f = Numbers {
        variables,
        clauses,
        target,
        permutations,
    };
    let lent = Clauses { positive, negative };
    put_verdict(reply, check_numbers(f, lent, file));
    1
}

// The reader of a file's contents, its answer put into the first four words of `reply`; where it is opened its
// contents, eight numbers in their order, are put into the first eight words of `contents`. It returns 1; where one of
// the two has no room it returns 0 and changes nothing.
#[unsafe(no_mangle)]
pub extern "C" fn jugbowo_open(file: &[u8], contents: &mut [u64], reply: &mut [u64]) -> u32
    ensures { OpenReturns file.now contents.old reply.old result
        contents.new reply.new }
{
    if reply.len() < WORDS || contents.len() < CONTENTS {
        return 0;
    }
    put_opened(contents, reply, certificate::read(file));
    1
}

// Where the permutation of index j in a body of permutations of n variables sends variable i + 1, put into the first
// two words of `reply`: 1 and the image, or 0 and 0 where it lies outside the body. It returns 1; where `reply` has no
// room it returns 0 and changes nothing.
#[unsafe(no_mangle)]
pub extern "C" fn jugbowo_image_at(
    body: &[u8],
    n: usize,
    j: usize,
    i: usize,
    reply: &mut [u64],
) -> u32
    ensures { EntryReturns (image_at n body.now j i) reply.old result reply.new }
{
    if reply.len() < ENTRY {
        return 0;
    }
    put_entry(reply, image_at(body, n, j, i));
    1
}

// The point of index i in a body of points, put there like an image.
#[unsafe(no_mangle)]
pub extern "C" fn jugbowo_point_at(body: &[u8], i: usize, reply: &mut [u64]) -> u32
    ensures { EntryReturns (number_at point_width body.now i) reply.old result reply.new }
{
    if reply.len() < ENTRY {
        return 0;
    }
    put_entry(reply, point_at(body, i));
    1
}

// The clause number of index i in a body of clause numbers, put there like an image.
#[unsafe(no_mangle)]
pub extern "C" fn jugbowo_number_at(body: &[u8], i: usize, reply: &mut [u64]) -> u32
    ensures { EntryReturns (number_at number_width body.now i) reply.old result
        reply.new }
{
    if reply.len() < ENTRY {
        return 0;
    }
    put_entry(reply, number_at(body, i));
    1
}

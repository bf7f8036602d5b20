// The arrays in which the clauses of a text are collected, in sizes that follow how many there are to be.
#![tactic(auto)]

ghost use Rattle.std.specs.Prelude.{◌≤◌, length};
ghost use Rattle.point_slices.specs.Slices.{clause_slices};
ghost use Rattle.formula.specs.Limits.{max_clauses};
ghost use Rattle.dimacs_format.specs.Reader.{text_says};
ghost use Rattle.dimacs_words.specs.Laws.Scans.{lines_behind};
ghost use Rattle.dimacs_lines.specs.Laws.ParsedAs.{parsed_in, Collectable, ParsedAs};

use dimacs_format::Sizes;
use dimacs_lines::collect;
use formula::reasons::Refusal;
use formula::{Formula, Numbers};

// How many clauses the arrays have room for, since each array is made 0 first: 256 bytes, 2 KiB, 8 KiB and 32 KiB.
const TINY_CLAUSES: usize = 32;

pub const FEW_CLAUSES: usize = 256;

const SOME_CLAUSES: usize = 1024;

const MOST_CLAUSES: usize = Formula::MAX_CLAUSES as usize;

// At most so many clauses, collected in local arrays. It stays out of its caller, so that a small text takes little of
// the stack.
#[inline(never)]
fn collected<const CLAUSES: usize>(
    text: &[u8],
    end: usize,
    sizes: Sizes,
    positive: &mut [u64],
    negative: &mut [u64],
    images: &mut [u8],
) -> Result<Numbers, Refusal>
    requires collectable { Collectable sizes (clause_slices positive.old negative.old) text.now end images.old }
    requires roomy { sizes.total ≤ CLAUSES }
    requires few { CLAUSES ≤ max_clauses }
    ensures { ParsedAs (text_says (length text.now) sizes (lines_behind text.now end))
        (clause_slices positive.old negative.old) (parsed_in result images.new)
        (clause_slices positive.new negative.new) }
{
    let mut p = [0u64; CLAUSES];
    let mut q = [0u64; CLAUSES];
    collect(text, end, sizes, &mut p, &mut q, positive, negative, images)
}

// The lines, read into lent images, which are 0 before, with arrays to collect the clauses in whose size follows C.
// `dimacs::read_sized` sees to what it requires, by refusals 1, 3 and 4.
pub fn read_clauses(
    text: &[u8],
    end: usize,
    sizes: Sizes,
    positive: &mut [u64],
    negative: &mut [u64],
    images: &mut [u8],
) -> Result<Numbers, Refusal>
    requires { Collectable sizes (clause_slices positive.old negative.old) text.now end images.old }
    ensures { ParsedAs (text_says (length text.now) sizes (lines_behind text.now end))
        (clause_slices positive.old negative.old) (parsed_in result images.new)
        (clause_slices positive.new negative.new) }
{
    let total = sizes.total as usize;
    if total <= TINY_CLAUSES {
        return collected::<TINY_CLAUSES>(text, end, sizes, positive, negative, images);
    }
    if total <= FEW_CLAUSES {
        return collected::<FEW_CLAUSES>(text, end, sizes, positive, negative, images);
    }
    if total <= SOME_CLAUSES {
        return collected::<SOME_CLAUSES>(text, end, sizes, positive, negative, images);
    }
    collected::<MOST_CLAUSES>(text, end, sizes, positive, negative, images)
}

// The reader: for any bytes a formula and its clauses, or a refusal with its reason and place. It tests the size of the
// text, its problem line, its limits and the room, then reads the lines.
#![tactic(auto)]

ghost use Rattle.std.specs.Prelude.{◌≡◌, ◌≤◌, ◌-◌, length, take, drop};
ghost use Rattle.point_slices.specs.Slices.{clause_slices, clause_room};
ghost use Rattle.dimacs_format.specs.Reader.{with_sizes};
ghost use Rattle.dimacs_format.specs.Text.{piece, max_text};
ghost use Rattle.dimacs_words.specs.Laws.Scans.{lines_behind};
ghost use Rattle.dimacs_lines.specs.Laws.ParsedAs.{no_images, parsed_in, ParsedAs};
ghost use Rattle.dimacs.specs.Contract.{Read};

use dimacs_arrays::read_clauses;
use dimacs_format::Sizes;
use dimacs_lines::{Parsed, with_images};
use dimacs_problem::{Line, find_problem, read_problem};
use formula::reasons::{Reason, Refusal};
use formula::{Formula, Numbers};
use point_slices::point_count;

// S7: "The text is at most 1,048,576 bytes."
const MAX_TEXT: usize = 1048576;

// R3: "V or C outside limits | 3 | line's first byte"; R4: "a rule slice shorter than C | 4 | line's first byte".
// Refusal 1 and the place of the problem line see to what it requires.
fn read_sized(
    text: &[u8],
    line: Line,
    sizes: Sizes,
    positive: &mut [u64],
    negative: &mut [u64],
    images: &mut [u8],
) -> Result<Numbers, Refusal>
    requires { (length text.now ≤ max_text) × (line.stop ≤ length text.now) × (images.old ≡ no_images) }
    ensures { ParsedAs (with_sizes (length text.now)
        (clause_room (clause_slices positive.old negative.old))
        (piece line.start (take (line.stop - line.start) (drop line.start text.now)))
        (lines_behind text.now line.stop) sizes)
        (clause_slices positive.old negative.old) (parsed_in result images.new)
        (clause_slices positive.new negative.new) }
{
    let place = line.start;
    if sizes.variables < 1
        || Formula::MAX_VARIABLES < sizes.variables
        || Formula::MAX_CLAUSES < sizes.total
    {
        return Err(Refusal {
            reason: Reason::Sizes,
            place,
        });
    }
    let total = sizes.total as usize;
    let room = point_count(positive).min(point_count(negative));
    if room < total {
        return Err(Refusal {
            reason: Reason::ClauseRoom,
            place,
        });
    }
    read_clauses(text, line.stop, sizes, positive, negative, images)
}

// The reader, to lent images, which are 0 before: the numbers of the formula, or a refusal. The work is linear in
// the text: a byte before the problem line is visited at most four times, one of that line at most nine times, one
// behind it at most twenty-one times (`read_lines`).
pub fn read_lent(
    text: &[u8],
    positive: &mut [u64],
    negative: &mut [u64],
    images: &mut [u8],
) -> Result<Numbers, Refusal>
    requires { images.old ≡ no_images }
    ensures { Read text.now (clause_slices positive.old negative.old)
        (parsed_in result images.new) (clause_slices positive.new negative.new) }
{
    let size = text.len();
    if MAX_TEXT < size {
        return Err(Refusal {
            reason: Reason::LongText,
            place: MAX_TEXT,
        });
    }
    let Some(line) = find_problem(text) else {
        return Err(Refusal {
            reason: Reason::ProblemLine,
            place: size,
        });
    };
    let Some(sizes) = read_problem(&text[line.start..line.stop]) else {
        return Err(Refusal {
            reason: Reason::ProblemLine,
            place: line.start,
        });
    };
    read_sized(text, line, sizes, positive, negative, images)
}

// D2.1: "A sheet is read as DIMACS CNF, as document 01 fixes it." The formula by value: its images are read to 1 KiB of
// the stack, which is made 0 first, and copied.
pub fn read(text: &[u8], positive: &mut [u64], negative: &mut [u64]) -> Parsed
    ensures { Read text.now (clause_slices positive.old negative.old) result
        (clause_slices positive.new negative.new) }
{
    let mut images = [0u8; Formula::MAX_IMAGES];
    let r = read_lent(text, positive, negative, &mut images);
    with_images(r, images)
}

// The reader's answer to the lines behind the problem line: clauses are collected apart until the text is accepted.
#![tactic(auto)]

ghost use Rattle.std.specs.Prelude.{◌≡◌, ◌≤◌, length};
ghost use Rattle.point_slices.specs.Slices.{points_of, clause_slices};
ghost use Rattle.dimacs_format.specs.Reader.{text_says};
ghost use Rattle.dimacs_words.specs.Laws.Scans.{lines_behind};
ghost use Rattle.dimacs_clauses.specs.Laws.ClauseScans.{Ready};
ghost use Rattle.dimacs_lines.specs.Laws.ParsedAs.{Copied, parsed_in, HasRoom};
ghost use Rattle.dimacs_lines.specs.Laws.ParsedAs.{Collectable, ParsedAs, Accepting};

use dimacs_body::{State, read_lines};
use dimacs_format::Sizes;
use formula::reasons::{Reason, Refusal};
use formula::{Formula, Numbers};
use point_slices::{point_at, point_count, put_point};

// What the reader says of a text: the formula read, 0 throughout after a refusal, beside the answer.
#[derive(Drop)]
pub struct Parsed {
    pub formula: Formula,
    pub answer: Result<(), Refusal>,
}

// The first `count` points of one slice, to the front of another. One step a point. Callers have seen to the room, so
// that it never returns early: the two tests are there so that a compiler leaves out those of each place.
fn copy(from: &[u64], to: &mut [u64], count: usize)
    requires { (count ≤ length (points_of from.now)) × (count ≤ length (points_of to.old)) }
    ensures { Copied from.now to.old count to.new }
{
    if point_count(from) < count || point_count(to) < count {
        return;
    }
    for i in 0..count {
        put_point(to, i, point_at(from, i));
    }
}

// S15: "Exactly C rules are closed." Then, and not before, the clauses go to the lent slices; with fewer the text is
// refused at the place where the sheet ends. S18: "without it the wish is all 0". Refusals 3 and 4 see to the room.
fn accept(
    place: usize,
    sizes: Sizes,
    state: State,
    p: &[u64],
    q: &[u64],
    positive: &mut [u64],
    negative: &mut [u64],
) -> Result<Numbers, Refusal>
    requires { Ready sizes state.begun.closed (clause_slices p.now q.now)
        × HasRoom sizes (clause_slices positive.old negative.old) }
    ensures { Accepting place sizes state (clause_slices p.now q.now)
        (clause_slices positive.old negative.old) result
        (clause_slices positive.new negative.new) }
{
    if state.begun.closed < sizes.total {
        return Err(Refusal {
            reason: Reason::ClauseCount,
            place,
        });
    }
    let count = sizes.total as usize;
    copy(p, positive, count);
    copy(q, negative, count);
    Ok(Numbers {
        variables: sizes.variables,
        clauses: sizes.total,
        target: state.wanted.unwrap_or(points::EMPTY),
        permutations: state.permutations,
    })
}

// N1: the clauses are collected in `p` and `q`, so that a later refusal finds the lent slices unchanged. The functions
// that make these arrays see to what it requires.
pub fn collect(
    text: &[u8],
    end: usize,
    sizes: Sizes,
    p: &mut [u64],
    q: &mut [u64],
    positive: &mut [u64],
    negative: &mut [u64],
    images: &mut [u8],
) -> Result<Numbers, Refusal>
    requires { Collectable sizes (clause_slices positive.old negative.old) text.now end images.old
        × HasRoom sizes (clause_slices p.old q.old) }
    ensures { ParsedAs (text_says (length text.now) sizes (lines_behind text.now end))
        (clause_slices positive.old negative.old) (parsed_in result images.new)
        (clause_slices positive.new negative.new) }
{
    let read = read_lines(text, end, sizes, p, q, images)?;
    accept(read.stop, sizes, read.state, p, q, positive, negative)
}

// The formula read with its images, 0 throughout after a refusal (N2: "a refusal carries one that is 0 throughout").
pub fn with_images(read: Result<Numbers, Refusal>, images: [u8; Formula::MAX_IMAGES]) -> Parsed
    ensures { result ≡ parsed_in read images }
{
    match read {
        Ok(numbers) => Parsed {
            formula: Formula {
                variables: numbers.variables,
                clauses: numbers.clauses,
                target: numbers.target,
                permutations: numbers.permutations,
                images,
            },
            answer: Ok(()),
        },
        Err(refusal) => Parsed {
            formula: Formula::empty(),
            answer: Err(refusal),
        },
    }
}

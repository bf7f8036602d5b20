// The words of the lines that are no comments: literals, and the zeros that close clauses.
#![tactic(auto)]

ghost use Rattle.std.specs.Prelude.{false, ◌≡◌, ◌≤◌, ◌<◌, length, get_or};
ghost use Rattle.point_slices.specs.Slices.{clause_slices};
ghost use Rattle.dimacs_format.specs.Text.{ends_line};
ghost use Rattle.dimacs_clauses.specs.Laws.ClauseScans.{none_begun, Room, Taking, Ready};
ghost use Rattle.dimacs_clauses.specs.Laws.ClauseScans.{Stepping, Placing, Scanning};

use dimacs_format::Sizes;
use dimacs_words::{Cursor, Word, ends_word, read_digits};
use formula::reasons::{Reason, Refusal};
use point_slices::put_point;
use points::{Point, with_variable};

// How many clauses are closed, and the one begun.
#[derive(Clone, Copy)]
pub struct Begun {
    pub closed: u32,
    pub positive: Point,
    pub negative: Point,
}

// So many clauses closed, and none begun.
pub fn none_begun(closed: u32) -> Begun
    ensures { result ≡ none_begun closed }
{
    Begun {
        closed,
        positive: points::EMPTY,
        negative: points::EMPTY,
    }
}

// What a part of a text leads to, and the place where the text is to be read on.
#[derive(Clone, Copy)]
pub struct Stepped {
    pub begun: Begun,
    pub next: Cursor,
}

// S14: "A zero closes a rule."; refusal 6. The closed clause goes to its place in the slices. The loop over words has
// seen to the room.
fn take_number(
    n: u32,
    place: usize,
    begun: Begun,
    word: Word,
    positive: &mut [u64],
    negative: &mut [u64],
) -> Result<Begun, Refusal>
    requires { Room n begun.closed (clause_slices positive.old negative.old) }
    ensures { Taking n place (clause_slices positive.old negative.old) begun
        word.negated word.value result (clause_slices positive.new negative.new) }
{
    if word.value == 0 {
        let at = begun.closed as usize;
        put_point(positive, at, begun.positive);
        put_point(negative, at, begun.negative);
        return Ok(none_begun(begun.closed + 1));
    }
    if n < word.value {
        return Err(Refusal {
            reason: Reason::Literal,
            place,
        });
    }
    let v = word.value - 1;
    let mut more = begun;
    if word.negated {
        more.negative = with_variable(begun.negative, v);
    } else {
        more.positive = with_variable(begun.positive, v);
    }
    Ok(more)
}

// N3: "7 precedes 5 and 6 at a word". What was read for the word at `place`. `clause_word` sees to what it requires.
fn take_word(
    sizes: Sizes,
    place: usize,
    word: Option<Word>,
    begun: Begun,
    positive: &mut [u64],
    negative: &mut [u64],
) -> Result<Stepped, Refusal>
    requires { Ready sizes begun.closed (clause_slices positive.old negative.old) }
    ensures { Placing sizes place (clause_slices positive.old negative.old) begun word result
        (clause_slices positive.new negative.new) }
{
    if sizes.total <= begun.closed {
        return Err(Refusal {
            reason: Reason::ClauseCount,
            place,
        });
    }
    let Some(word) = word else {
        return Err(Refusal {
            reason: Reason::Word,
            place,
        });
    };
    let more = take_number(sizes.variables, place, begun, word, positive, negative)?;
    Ok(Stepped {
        begun: more,
        next: word.next,
    })
}

// F7; S13: "an optional minus, one to four digits". The word at the cursor, or the one blank there; the line does not
// end there. What follows stands once for each sign, so that a compiler need not have the sign asked for again.
fn clause_word(
    text: &[u8],
    cursor: Cursor,
    sizes: Sizes,
    begun: Begun,
    positive: &mut [u64],
    negative: &mut [u64],
) -> Result<Stepped, Refusal>
    requires { Ready sizes begun.closed (clause_slices positive.old negative.old)
        × (cursor.at < length text.now) × (ends_line (get_or text.now cursor.at 0) ≡ false) }
    ensures { Stepping sizes text.now cursor.at
        (clause_slices positive.old negative.old) begun result
        (clause_slices positive.new negative.new) }
{
    let place = cursor.at;
    let behind = place + 1;
    let first = text[place];
    if ends_word(first) {
        return Ok(Stepped {
            begun,
            next: Cursor { at: behind },
        });
    }
    if first == b'-' {
        let word = read_digits(text, true, behind);
        return take_word(sizes, place, word, begun, positive, negative);
    }
    let word = read_digits(text, false, place);
    take_word(sizes, place, word, begun, positive, negative)
}

// The words of the line that begins at `start`, and where it ends. A byte of the line is visited at most four times: to
// test whether the line or a word ends there, for a minus, and for its digit. `dimacs_body::clause_lines` sees to what
// it requires.
pub fn clause_line(
    text: &[u8],
    start: usize,
    sizes: Sizes,
    begun: Begun,
    positive: &mut [u64],
    negative: &mut [u64],
) -> Result<Stepped, Refusal>
    requires { Ready sizes begun.closed (clause_slices positive.old negative.old)
        × (start ≤ length text.now) }
    ensures { Scanning sizes text.now start
        (clause_slices positive.old negative.old) begun result
        (clause_slices positive.new negative.new) }
{
    let mut state = begun;
    let mut cursor = Cursor { at: start };
    while cursor.at < text.len() {
        if text[cursor.at] == b'\n' {
            break;
        }
        let step = clause_word(text, cursor, sizes, state, positive, negative)?;
        state = step.begun;
        cursor = step.next;
    }
    Ok(Stepped {
        begun: state,
        next: cursor,
    })
}

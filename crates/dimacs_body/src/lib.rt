// The body of a text: the lines behind the problem line, one after the other, up to the end of the sheet.
#![tactic(auto)]

ghost use Rattle.std.specs.Prelude.{true, ◌≡◌, ◌≤◌, length};
ghost use Rattle.point_slices.specs.Slices.{clause_slices};
ghost use Rattle.dimacs_format.specs.Text.{max_text, piece, is_comment};
ghost use Rattle.dimacs_clauses.specs.Laws.ClauseScans.{Ready};
ghost use Rattle.dimacs_body.specs.Laws.LineScans.{nothing_said, Kept, Standing, CommentRead};
ghost use Rattle.dimacs_body.specs.Laws.LineScans.{opens_with, opens_comment, opens_apart, percent_at};
ghost use Rattle.dimacs_body.specs.Laws.LineScans.{WordsThere, Following, Advancing, LinesRead};

use dimacs_clauses::{Begun, Stepped, clause_line, none_begun};
use dimacs_format::Sizes;
use dimacs_permutations::permutation_line;
use dimacs_targets::target_line;
use dimacs_words::{blank_from, line_end};
use formula::reasons::Refusal;
use points::Point;

// What the lines have said so far, beside the slices of the clauses and the images: a part for each kind of line.
#[derive(Clone, Copy)]
pub struct State {
    pub begun: Begun,
    pub wanted: Option<Point>,
    pub permutations: u32,
}

// S17: "After the problem line two comments have meaning, also inside a rule." F2: the heads are fixed byte strings. A
// comment behind the problem line: each kind replaces its own part of what was said. The heads are at most fourteen
// bytes to compare. `read_part` sees to what it requires.
fn read_comment(
    line: &[u8],
    start: usize,
    sizes: Sizes,
    state: State,
    images: &mut [u8],
) -> Result<State, Refusal>
    requires { Kept sizes state images.old × (is_comment (piece start line.now) ≡ true) }
    ensures { CommentRead sizes start line.now state images.old result
        images.new }
{
    let n = sizes.variables;
    if let Some(rest) = line.strip_prefix(b"c wish ") {
        let target = target_line(rest, start, n, state.wanted)?;
        return Ok(State {
            wanted: Some(target),
            ..state
        });
    }
    if let Some(rest) = line.strip_prefix(b"c exch ") {
        let permutations = permutation_line(rest, start, n, state.permutations, images)?;
        return Ok(State {
            permutations,
            ..state
        });
    }
    Ok(state)
}

// Whether the line that begins at the place has the byte first.
fn opens_with(text: &[u8], at: usize, byte: u8) -> bool
    ensures { result ≡ opens_with byte text.now at }
{
    at < text.len() && text[at] == byte
}

// S10: "A line whose first byte is `c` is a comment.": whether one begins at the place.
fn opens_comment(text: &[u8], at: usize) -> bool
    ensures { result ≡ opens_comment text.now at }
{
    opens_with(text, at, b'c')
}

// Q01.2: "a line whose first byte is `%` and that otherwise holds blanks": whether one begins at the place. Lines with
// another first byte cost one step; a line with this one is the last that is read. Callers stand within the text.
fn percent_line(text: &[u8], at: usize) -> bool
    requires { at ≤ length text.now }
    ensures { result ≡ percent_at text.now at }
{
    if !opens_with(text, at, b'%') {
        return false;
    }
    let stop = line_end(text, at);
    blank_from(&text[at..stop], 1)
}

// Whether the line that begins at the place may be no line of words: a comment, or one that begins with `%`.
fn opens_apart(text: &[u8], at: usize) -> bool
    ensures { result ≡ opens_apart text.now at }
{
    at < text.len() && ((text[at] == b'c') | (text[at] == b'%'))
}

// The lines of words from the one that begins at `start` up to the next that begins with `c` or `%`, or the end of the
// text, and where the last of them ends. One step a line, and a byte of a line is visited at most five times: four by
// `clause_line`, and the first of a line once more. `read_part` sees to what it requires.
fn clause_lines(
    text: &[u8],
    start: usize,
    sizes: Sizes,
    begun: Begun,
    positive: &mut [u64],
    negative: &mut [u64],
) -> Result<Stepped, Refusal>
    requires { Ready sizes begun.closed (clause_slices positive.old negative.old) × (start ≤ length text.now)
        × WordsThere text.now start }
    ensures { Following sizes text.now start
        (clause_slices positive.old negative.old) begun result
        (clause_slices positive.new negative.new) }
{
    let mut state = begun;
    let mut first = start;
    loop {
        let step = clause_line(text, first, sizes, state, positive, negative)?;
        let stop = step.next.at;
        if text.len() <= stop {
            return Ok(step);
        }
        let next = stop + 1;
        if opens_apart(text, next) {
            return Ok(step);
        }
        state = step.begun;
        first = next;
    }
}

// What was said up to the end of a line, or of the sheet, and where that is.
#[derive(Clone, Copy)]
pub struct Lined {
    pub state: State,
    pub stop: usize,
}

// A comment, or lines of words: what begins at `start` decides; none is read on at a percent line, which ends the sheet.
// The heads are at most fourteen bytes to compare, and each handler says how often it visits a byte. Comments are asked
// for first, so that remarks pay nothing for percent lines; lines of words pay one step a part, which is many lines.
// `read_lines` sees to what it requires.
fn read_part(
    text: &[u8],
    start: usize,
    sizes: Sizes,
    state: State,
    positive: &mut [u64],
    negative: &mut [u64],
    images: &mut [u8],
) -> Result<Option<Lined>, Refusal>
    requires { Standing sizes state (clause_slices positive.old negative.old) images.old
        × (start ≤ length text.now) }
    ensures { Advancing sizes text.now start state
        (clause_slices positive.old negative.old) images.old result
        (clause_slices positive.new negative.new) images.new }
{
    if opens_comment(text, start) {
        let stop = line_end(text, start);
        let more = read_comment(&text[start..stop], start, sizes, state, images)?;
        return Ok(Some(Lined { state: more, stop }));
    }
    if percent_line(text, start) {
        return Ok(None);
    }
    let step = clause_lines(text, start, sizes, state.begun, positive, negative)?;
    let more = State {
        begun: step.begun,
        ..state
    };
    Ok(Some(Lined {
        state: more,
        stop: step.next.at,
    }))
}

// What the lines have said before the first of them.
fn begin() -> State
    ensures { result ≡ nothing_said }
{
    State {
        begun: none_begun(0),
        wanted: None,
        permutations: 0,
    }
}

// The same state, field by field. A compiler copies a structure with the bytes that part its fields, and these, handed
// on from line to line, would make each line wait for the one before.
fn afresh(state: State) -> State
    ensures { result ≡ state }
{
    let begun = state.begun;
    State {
        begun: Begun {
            closed: begun.closed,
            positive: begun.positive,
            negative: begun.negative,
        },
        wanted: state.wanted,
        permutations: state.permutations,
    }
}

// N3: "then the first fault in text order": the lines behind the one that ends at `end`, and where the sheet ends: the
// text's length, or the first byte of a percent line (Q01.2). A byte of a comment is visited at most twice to find its
// line's end, at most fifteen times as part of a head, and at most four times more; one of another line at most six
// times, but a `%` that begins a line at most nine times. So the work is linear in the text. `dimacs_lines::collect`
// sees to what it requires: refusals 1 and 3, slices with room for C clauses, images of zeros.
pub fn read_lines(
    text: &[u8],
    end: usize,
    sizes: Sizes,
    positive: &mut [u64],
    negative: &mut [u64],
    images: &mut [u8],
) -> Result<Lined, Refusal>
    requires { Standing sizes nothing_said (clause_slices positive.old negative.old) images.old
        × (length text.now ≤ max_text) × (end ≤ length text.now) }
    ensures { LinesRead sizes text.now end result
        (clause_slices positive.new negative.new) images.new }
{
    let mut state = begin();
    let mut last = end;
    while last < text.len() {
        let start = last + 1;
        let Some(part) = read_part(text, start, sizes, state, positive, negative, images)? else {
            return Ok(Lined { state, stop: start });
        };
        state = afresh(part.state);
        last = part.stop;
    }
    Ok(Lined {
        state,
        stop: text.len(),
    })
}

// The problem line: where it stands in a text, and what it says.
#![tactic(auto)]

ghost use Rattle.std.specs.Prelude.{◌≡◌, ◌≤◌, length};
ghost use Rattle.dimacs_format.specs.Reader.{problem_in, is_skipped};
ghost use Rattle.dimacs_format.specs.Text.{piece};
ghost use Rattle.dimacs_problem.specs.Laws.ProblemScans.{sizing_of, WordMatched, NumberMatched, ProblemFound};

use dimacs_format::Sizes;
use dimacs_words::{Class, Cursor, blank_from, line_end, read_number, run_end};

// A number that was looked for, with the cursor behind it.
#[derive(Clone, Copy)]
pub struct Number {
    pub value: u32,
    pub next: Cursor,
}

// Where a line begins, and where it ends.
#[derive(Clone, Copy)]
pub struct Line {
    pub start: usize,
    pub stop: usize,
}

// The cursor behind the fixed word, if that is what stands behind the blanks at the cursor. The caller stands within the
// line.
fn expect_word(line: &[u8], cursor: Cursor, word: &[u8]) -> Option<Cursor>
    requires { (cursor.at ≤ length line.now) × (1 ≤ length word.now) }
    ensures { WordMatched line.now cursor.at word.now result }
{
    let from = run_end(line, cursor.at, Class::Blank);
    let to = run_end(line, from, Class::Word);
    if &line[from..to] == word {
        Some(Cursor { at: to })
    } else {
        None
    }
}

// The number without sign behind the blanks at the cursor, if one stands there. The caller stands within the line.
fn expect_number(line: &[u8], cursor: Cursor) -> Option<Number>
    requires { cursor.at ≤ length line.now }
    ensures { NumberMatched line.now cursor.at result }
{
    let from = run_end(line, cursor.at, Class::Blank);
    let to = run_end(line, from, Class::Word);
    let value = read_number(&line[from..to])?;
    Some(Number {
        value,
        next: Cursor { at: to },
    })
}

// S11: "byte `p` first, then `cnf`, V, C, parted by blanks, nothing else but trailing blanks". A byte is visited at
// most five times.
pub fn read_problem(line: &[u8]) -> Option<Sizes>
    ensures { sizing_of result ≡ problem_in (piece 0 line.now) }
{
    if !line.starts_with(b"p") {
        return None;
    }
    let head = expect_word(line, Cursor { at: 0 }, b"p")?;
    let format = expect_word(line, head, b"cnf")?;
    let variables = expect_number(line, format)?;
    let total = expect_number(line, variables.next)?;
    if !blank_from(line, total.next.at) {
        return None;
    }
    Some(Sizes {
        variables: variables.value,
        total: total.value,
    })
}

// Whether a line before the problem line is a comment or all blanks. A byte is visited at most twice.
fn is_skipped(line: &[u8]) -> bool
    ensures { result ≡ is_skipped (piece 0 line.now) }
{
    line.starts_with(b"c") || blank_from(line, 0)
}

// S11: "The first other line that isn't all blanks must be the problem line". A byte before it is visited at most four
// times, two of them to find its line's end.
pub fn find_problem(text: &[u8]) -> Option<Line>
    ensures { ProblemFound text.now result }
{
    let mut start = 0;
    loop {
        let stop = line_end(text, start);
        if !is_skipped(&text[start..stop]) {
            return Some(Line { start, stop });
        }
        if text.len() <= stop {
            return None;
        }
        start = stop + 1;
    }
}

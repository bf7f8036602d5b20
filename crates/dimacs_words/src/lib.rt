// The bytes of a text: blanks and digits, runs of bytes, and words read as numbers.
#![tactic(auto)]

ghost use Rattle.std.specs.Prelude.{◌≡◌, ◌≤◌, length, drop};
ghost use Rattle.math.specs.Lists.{any};
ghost use Rattle.dimacs_format.specs.Text.{ends_line, is_blank, is_digit, all_blank, number_in};
ghost use Rattle.dimacs_words.specs.Laws.Scans.{belongs, Stretch, Skipped, ends_word, number_of, word_made};
ghost use Rattle.dimacs_words.specs.Laws.Scans.{DigitsRead};

// The runs of bytes that the reader goes along: blanks, the bytes of a word, the bytes of a line.
#[derive(Clone, Copy)]
pub enum Class {
    Blank,
    Word,
    Line,
}

// A place in a line or a text.
#[derive(Clone, Copy)]
pub struct Cursor {
    pub at: usize,
}

// F7: the number that a word is, with the cursor behind it. The word reader answers none where a word is malformed.
#[derive(Clone, Copy)]
pub struct Word {
    pub negated: bool,
    pub value: u32,
    pub next: Cursor,
}

pub fn is_blank(b: u8) -> bool
    ensures { result ≡ is_blank b }
{
    (b == b' ') | (b == b'\t') | (b == b'\r')
}

fn is_digit(b: u8) -> bool
    ensures { result ≡ is_digit b }
{
    (b'0' <= b) & (b <= b'9')
}

// Whether a word of a text ends before the byte: a blank, or the end of its line. Most bytes of a text are above a space,
// and most others are one, so these are asked for first.
pub fn ends_word(b: u8) -> bool
    ensures { result ≡ ends_word b }
{
    if b' ' < b {
        return false;
    }
    if b == b' ' {
        return true;
    }
    is_blank(b) | (b == b'\n')
}

// Whether a byte belongs to a run of the class.
fn belongs(class: Class, b: u8) -> bool
    ensures { result ≡ belongs class b }
{
    match class {
        Class::Blank => is_blank(b),
        Class::Word => !is_blank(b),
        Class::Line => b != b'\n',
    }
}

// Where the run of the class ends that begins at `from`. One step a byte of the run. Callers begin at 0, or
// where another run or line has ended within the bytes.
pub fn run_end(bytes: &[u8], from: usize, class: Class) -> usize
    requires { from ≤ length bytes.now }
    ensures { Stretch (belongs class) bytes.now from result }
{
    for i in from..bytes.len() {
        if !belongs(class, bytes[i]) {
            return i;
        }
    }
    bytes.len()
}

// Whether the bytes from a place on are all blanks. One step a byte, up to the first that is none. Callers stand within
// the bytes.
pub fn blank_from(bytes: &[u8], from: usize) -> bool
    requires { from ≤ length bytes.now }
    ensures { result ≡ all_blank (drop from bytes.now) }
{
    bytes[from..].iter().all(|b| is_blank(*b))
}

// How many bytes are tested at once for the end of a line: as many as a register of the least x86-64 holds.
const BLOCK: usize = 16;

// Whether a line ends in the bytes. One step a byte, none of them left out, so that a compiler tests many bytes at once;
// the library's search would leave at the first.
fn ends_inside(bytes: &[u8]) -> bool
    ensures { result ≡ any ends_line bytes.now }
{
    let mut found = false;
    for b in bytes {
        found |= *b == b'\n';
    }
    found
}

// Passes blocks in which no line ends, up to the first in which one does or that is not whole. One step a block.
// `line_end` sees to what it requires.
fn skip_blocks(text: &[u8], from: usize) -> usize
    requires { from ≤ length text.now }
    ensures { Skipped text.now from result }
{
    let mut i = from;
    while BLOCK <= text.len() - i {
        let next = i + BLOCK;
        let ended = ends_inside(&text[i..next]);
        if ended {
            return i;
        }
        i = next;
    }
    i
}

// Where the line ends that begins at `from`: one step a block without its end, then one a byte. A byte is visited at
// most twice. Callers begin at 0, or where another line has ended within the text. It stands in each caller: many lines are
// short.
#[inline(always)]
pub fn line_end(text: &[u8], from: usize) -> usize
    requires { from ≤ length text.now }
    ensures { Stretch (belongs Class.Line) text.now from result }
{
    run_end(text, skip_blocks(text, from), Class::Line)
}

// S13: "one to four digits, leading zeros allowed". At most four steps.
pub fn read_number(w: &[u8]) -> Option<u32>
    ensures { number_of result ≡ number_in w.now }
{
    if w.is_empty() || 4 < w.len() {
        return None;
    }
    let mut v: u32 = 0;
    for b in w {
        if !is_digit(*b) {
            return None;
        }
        v = v * 10 + u32::from(*b - b'0');
    }
    Some(v)
}

// What digits up to a place make with their sign, of this value: S13, "a minus before value 0 malformed".
fn made_word(negated: bool, value: u32, at: usize) -> Option<Word>
    ensures { result ≡ word_made negated value at }
{
    if value == 0 && negated {
        return None;
    }
    Some(Word {
        negated,
        value,
        next: Cursor { at },
    })
}

// F7; S13: "one to four digits, leading zeros allowed": the rest of a word, behind its sign, up to a blank, the end of
// its line or that of the text. Its value is read in the pass that finds its end: at most five steps. Callers stand
// within the text. It stands in each caller, so that the word goes on in registers, and the sign need not be asked for.
#[inline(always)]
pub fn read_digits(text: &[u8], negated: bool, from: usize) -> Option<Word>
    requires { from ≤ length text.now }
    ensures { DigitsRead text.now negated from result }
{
    if text.len() <= from {
        return None;
    }
    let first = text[from];
    if !is_digit(first) {
        return None;
    }
    let mut v = u32::from(first - b'0');
    for i in from + 1..text.len() {
        let b = text[i];
        if !is_digit(b) {
            if !ends_word(b) {
                return None;
            }
            return made_word(negated, v, i);
        }
        let passed = i - from;
        if 4 <= passed {
            return None;
        }
        v = v * 10 + u32::from(b - b'0');
    }
    made_word(negated, v, text.len())
}

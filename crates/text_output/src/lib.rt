// Texts and decimal numbers put into lent bytes, as far as these reach: each function stores what there is room for
// and answers the place behind all of it.
#![tactic(auto)]

ghost use Rattle.std.specs.Prelude.{[], ◌∷◌, ◌≡◌, ◌+◌, ◌≤◌, ◌<◌, length, set};
ghost use Rattle.text_output.specs.Decimal.{numeral, field, line};
ghost use Rattle.text_output.specs.Laws.Putting.{places_end, Put};

// Stores a byte at place i; past the end nothing is stored.
fn store_byte(out: &mut [u8], i: usize, b: u8)
    ensures { out.new ≡ set out.old i b }
{
    if i < out.len() {
        out[i] = b;
    }
}

// Puts one byte.
pub fn put_byte(out: &mut [u8], at: usize, b: u8) -> usize
    requires { at < places_end }
    ensures { Put at (b ∷ []) out.old result out.new }
{
    store_byte(out, at, b);
    at + 1
}

// Puts one digit.
fn put_digit(out: &mut [u8], at: usize, d: u64) -> usize
    requires { (d < 10) × (at < places_end) }
    ensures { Put at ((48 + d) ∷ []) out.old result out.new }
{
    let byte = b'0' + d as u8;
    put_byte(out, at, byte)
}

// Puts the decimal digits of a number. One call a digit, so at most 20 deep.
fn put_decimal(out: &mut [u8], at: usize, x: u64) -> usize
    requires { at + length (numeral x) ≤ places_end }
    ensures { Put at (numeral x) out.old result out.new }
{
    if x < 10 {
        return put_digit(out, at, x);
    }
    let place = put_decimal(out, at, x / 10);
    put_digit(out, place, x % 10)
}

// Puts a text. One step a byte.
pub fn put_text(out: &mut [u8], at: usize, text: &[u8]) -> usize
    requires { at + length text.now ≤ places_end }
    ensures { Put at text.now out.old result out.new }
{
    let mut place = at;
    for b in text {
        place = put_byte(out, place, *b);
    }
    place
}

// Puts a text with a number behind it.
pub fn put_field(out: &mut [u8], at: usize, head: &[u8], x: u64) -> usize
    requires { at + length (field head.now x) ≤ places_end }
    ensures { Put at (field head.now x) out.old result out.new }
{
    let place = put_text(out, at, head);
    put_decimal(out, place, x)
}

// Puts a line with two numbers: a text in front of each, and a line end.
pub fn put_line(out: &mut [u8], at: usize, head: &[u8], a: u64, between: &[u8], b: u64) -> usize
    requires { at + length (line head.now a between.now b) ≤ places_end }
    ensures { Put at (line head.now a between.now b) out.old result out.new }
{
    let first = put_field(out, at, head, a);
    let second = put_field(out, first, between, b);
    put_byte(out, second, b'\n')
}

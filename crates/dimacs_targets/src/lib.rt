// The comment that gives the target: a function from what its lines have said so far to what they say with one more,
// and the reader of its contents. They are handed what stands behind the head of the line.
#![tactic(auto)]

ghost use Rattle.std.specs.Prelude.{◌≡◌, ◌≤◌, ◌<◌, length};
ghost use Rattle.points.specs.Points.{point_digits};
ghost use Rattle.formula.specs.Limits.{max_variables};
ghost use Rattle.dimacs_format.specs.Reader.{target_in};
ghost use Rattle.dimacs_targets.specs.Laws.TargetScans.{wanted_of, DigitRead, with_digit, binary_in, TargetRead};

use dimacs_words::blank_from;
use formula::reasons::{Reason, Refusal};
use points::{Point, with_variable};

// The digit 0 or 1 that a byte is.
#[tactic(auto, unfolding(dimacs_format::specs::Reader::is_binary))]
fn binary_digit(b: u8) -> Option<bool>
    ensures { DigitRead b result }
{
    match b {
        b'0' => Some(false),
        b'1' => Some(true),
        _ => None,
    }
}

// The point with one more digit, that of bit i.
fn with_digit(x: Point, i: u32, one: bool) -> Point
    requires { i < point_digits }
    ensures { result ≡ with_digit x i one }
{
    if one { with_variable(x, i) } else { x }
}

// S18: "holds n digits 0 or 1 unparted, name 1 first". One step a digit. The caller has seen to n and to the length.
fn target_digits(bytes: &[u8], n: u32) -> Option<Point>
    requires { (n ≤ max_variables) × (n ≤ length bytes.now) }
    ensures { wanted_of result ≡ binary_in n bytes.now }
{
    let mut x = points::EMPTY;
    for i in 0..n {
        let one = binary_digit(bytes[i as usize])?;
        x = with_digit(x, i, one);
    }
    Some(x)
}

// S18: "holds n digits 0 or 1 unparted, name 1 first, then only blanks". One step a byte.
// `dimacs_targets::target_line` is called below refusal 3, which sees to n.
pub fn read_target(bytes: &[u8], n: u32) -> Option<Point>
    requires { n ≤ max_variables }
    ensures { wanted_of result ≡ target_in n bytes.now }
{
    let size = n as usize;
    if bytes.len() < size {
        return None;
    }
    if !blank_from(bytes, size) {
        return None;
    }
    target_digits(bytes, n)
}

// R8: "wish line malformed or second | 8 | line's first byte", which stands at `start`. Refusal 3 sees to n.
pub fn target_line(
    bytes: &[u8],
    start: usize,
    n: u32,
    wanted: Option<Point>,
) -> Result<Point, Refusal>
    requires { n ≤ max_variables }
    ensures { TargetRead n start bytes.now wanted result }
{
    let refusal = Refusal {
        reason: Reason::TargetLine,
        place: start,
    };
    match wanted {
        Some(_) => Err(refusal),
        None => read_target(bytes, n).ok_or(refusal),
    }
}

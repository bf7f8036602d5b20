// The comment that gives a permutation: a function from what its lines have said so far to what they say with one more,
// and the readers of its contents. They are handed what stands behind the head of the line.
#![tactic(auto)]

ghost use Rattle.std.specs.Prelude.{◌≡◌, ◌+◌, ◌≤◌, length};
ghost use Rattle.formula.specs.Limits.{max_variables};
ghost use Rattle.dimacs_permutations.specs.Laws.PermutationScans.{Imaging, image_made, Storing, Permuting};
ghost use Rattle.dimacs_permutations.specs.Laws.HandlerScans.{PermutationRead, KeptImages};

use dimacs_words::{Class, Cursor, Word, blank_from, is_blank, read_digits, run_end};
use formula::Formula;
use formula::reasons::{Reason, Refusal};
use permutation_images::is_permutation;

// The number of a variable in a permutation line, with the cursor behind it.
#[derive(Clone, Copy)]
pub struct Image {
    pub value: u32,
    pub next: Cursor,
}

// The number of a variable with the place where the next one is looked for, unless it is above n.
fn image_made(n: u32, value: u32, at: usize) -> Option<Image>
    ensures { result ≡ image_made n value at }
{
    if n < value {
        return None;
    }
    Some(Image {
        value,
        next: Cursor { at },
    })
}

// S19: "numbers from 1 to n without sign, one to four digits each, .. parted and followed only by blanks": the next
// one, but that it may be 0, which the permutation test finds. A byte 10, which no line has, would not end its word. The
// loop over the numbers stands within the bytes.
fn next_image(bytes: &[u8], cursor: Cursor, n: u32) -> Option<Image>
    requires { cursor.at ≤ length bytes.now }
    ensures { Imaging n bytes.now cursor.at result }
{
    let from = run_end(bytes, cursor.at, Class::Blank);
    let Some(Word { value, next, .. }) = read_digits(bytes, false, from) else {
        return None;
    };
    let to = next.at;
    if bytes.len() <= to {
        return image_made(n, value, to);
    }
    if bytes[to] == b'\n' {
        return None;
    }
    // the blank that ends the word need not be looked at again
    image_made(n, value, to + 1)
}

// The numbers of a permutation line, into a part of n bytes; whether they are n numbers, followed only by blanks. A byte
// of the line is visited once, and once more where a word begins or ends.
fn store_numbers(bytes: &[u8], n: u32, part: &mut [u8]) -> bool
    requires { (n ≤ max_variables) × (length part.old ≡ n) }
    ensures { Storing n bytes.now part.new result }
{
    let mut cursor = Cursor { at: 0 };
    for place in part.iter_mut() {
        let Some(image) = next_image(bytes, cursor, n) else {
            return false;
        };
        *place = image.value as u8;
        cursor = image.next;
    }
    blank_from(bytes, cursor.at)
}

// S19: "One that begins with `c exch ` holds n numbers from 1 to n without sign, .., every number just one time": into
// the n bytes at `at`. `dimacs_permutations::permutation_line` sees to the room, by its count of at most 16, and refusal
// 3 to n. It stays out of its caller, so that the loops over the numbers have the registers to themselves.
#[inline(never)]
pub fn read_permutation(bytes: &[u8], n: u32, images: &mut [u8], at: usize) -> bool
    requires { (n ≤ max_variables) × (at + n ≤ length images.old) }
    ensures { Permuting n bytes.now at images.old images.new result }
{
    if bytes.is_empty() {
        return false;
    }
    let blank = is_blank(bytes[0]);
    if blank {
        return false;
    }
    let end = at + n as usize;
    store_numbers(bytes, n, &mut images[at..end]) && is_permutation(n, &images[at..end])
}

// How many permutations there are with those of this line. R9: "exchange line malformed or seventeenth | 9 | line's first
// byte", which stands at `start`. `dimacs_body::read_comment` hands on the images as the lines so far left them; refusal
// 3 sees to n.
pub fn permutation_line(
    bytes: &[u8],
    start: usize,
    n: u32,
    permutations: u32,
    images: &mut [u8],
) -> Result<u32, Refusal>
    requires { (n ≤ max_variables) × KeptImages n permutations images.old }
    ensures { PermutationRead n start bytes.now permutations images.old result
        images.new }
{
    let refusal = Refusal {
        reason: Reason::PermutationLine,
        place: start,
    };
    if Formula::MAX_PERMUTATIONS <= permutations {
        return Err(refusal);
    }
    let at = permutations * n;
    if read_permutation(bytes, n, images, at as usize) {
        Ok(permutations + 1)
    } else {
        Err(refusal)
    }
}

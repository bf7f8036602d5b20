// The lines of a formula's text put into lent bytes, as far as these reach: the target, the permutations, the clauses.
#![tactic(auto)]

ghost use Rattle.std.specs.Prelude.{true, cond, ◌||◌, ◌≡◌, ◌+◌, ◌*◌, ◌^◌, ◌≤◌, ◌<◌, length};
ghost use mathlib.Core.List.{◌++◌, flat_map};
ghost use Rattle.math.specs.Bits.{bit};
ghost use Rattle.math.specs.Lists.{below};
ghost use Rattle.points.specs.Laws.Contracts.{clause_of};
ghost use Rattle.points.specs.Points.{Clause, listed};
ghost use Rattle.point_slices.specs.Laws.Contracts.{clauses_lent};
ghost use Rattle.permutation_images.specs.Laws.Contracts.{permutations_of};
ghost use Rattle.formula.specs.Limits.{max_variables};
ghost use Rattle.text_output.specs.Decimal.{line_end};
ghost use Rattle.text_output.specs.Laws.Putting.{places_end, Put};
ghost use Rattle.dimacs_text.specs.SheetText.{target_line};
ghost use Rattle.dimacs_text.specs.Laws.TextParts.{literal_part, variable_part, digit_part, permutation_part, clause_part};
ghost use Rattle.dimacs_text.specs.Laws.LengthLaws.{longest_clause};
ghost use Rattle.dimacs_output.specs.Laws.LiteralPutting.{signed, longest_literal};
ghost use Rattle.dimacs_output.specs.Laws.LinePutting.{longest_images, ListedWithin, AllPermutations};

use permutation_images::Permutations;
use point_slices::Clauses;
use points::{Clause, Point};
use text_output::{put_byte, put_field, put_text};

// Puts the word of a literal, and a blank behind it. Its minus and the first of two digits are put in any case, and the
// byte behind stands on them where there are none, so that no branch is needed on what a processor can hardly foresee.
fn put_literal(out: &mut [u8], at: usize, unwanted: bool, v: u32) -> usize
    requires { (v < max_variables) × (at + longest_literal ≤ places_end) }
    ensures { Put at (literal_part (signed unwanted (v + 1))) out.old result out.new
        × (result ≤ at + longest_literal) }
{
    let number = v + 1;
    let tens = b'0' + (number / 10) as u8;
    let ones = b'0' + (number % 10) as u8;
    let two = 10 <= number;
    put_byte(out, at, b'-');
    let first = at + usize::from(unwanted);
    put_byte(out, first, tens);
    let last = first + usize::from(two);
    let behind = put_byte(out, last, ones);
    put_byte(out, behind, b' ')
}

// Q02.2: "a name listed both ways yes before no": puts the literals of the variable of bit v. `put_clause` sees to it
// that the clause lists it. Whether it is listed both ways is one test, which seldom passes.
fn put_variable(out: &mut [u8], at: usize, c: Clause, v: u32) -> usize
    requires { (v < max_variables) × (bit c.positive v || bit c.negative v ≡ true)
        × (at + 2 * longest_literal ≤ places_end) }
    ensures { Put at (variable_part (clause_of c) v) out.old result out.new }
{
    let both = points::common(c.positive, c.negative);
    let unwanted = points::member(c.negative, v);
    if points::member(both, v) {
        let place = put_literal(out, at, false, v);
        return put_literal(out, place, true, v);
    }
    put_literal(out, at, unwanted, v)
}

// Q02.2: "names ascending, .., closing 0": puts the line of a clause. One step a variable that it lists.
fn put_clause(out: &mut [u8], at: usize, n: u32, c: Clause) -> usize
    requires { (n ≤ max_variables) × (listed (clause_of c) < 2 ^ n) × (at + longest_clause ≤ places_end) }
    ensures { Put at (clause_part n (clause_of c)) out.old result out.new }
{
    let mut left = points::listed(c);
    let mut v = points::next_variable(left);
    let mut place = at;
    while v < n {
        place = put_variable(out, place, c, v);
        left = points::flip(left, v);
        v = points::next_variable(left);
    }
    let last = put_byte(out, place, b'0');
    put_byte(out, last, b'\n')
}

// Q02.2: "then a line a rule": puts the lines of all clauses. One step a clause and one a variable that it lists.
pub fn put_clauses(out: &mut [u8], at: usize, n: u32, clauses: Clauses<'_>) -> usize
    requires { (n ≤ max_variables) × ListedWithin n (clauses_lent clauses)
        × (at + length (clauses_lent clauses) * longest_clause ≤ places_end) }
    ensures { Put at (flat_map (clause_part n) (clauses_lent clauses.entry)) out.old result out.new }
{
    let mut place = at;
    for i in 0..clauses.count() {
        place = put_clause(out, place, n, clauses.at(i));
    }
    place
}

// Puts the digits of a point, variable 1 first. One step a digit.
fn put_digits(out: &mut [u8], at: usize, n: u32, x: Point) -> usize
    requires { at + n ≤ places_end }
    ensures { Put at (flat_map (digit_part x) (below n)) out.old result out.new }
{
    let mut place = at;
    for i in 0..n {
        let digit = b'0' + u8::from(points::member(x, i));
        place = put_byte(out, place, digit);
    }
    place
}

// Puts the line of the target.
pub fn put_target(out: &mut [u8], at: usize, n: u32, x: Point) -> usize
    requires { at + (n + 8) ≤ places_end }
    ensures { Put at (target_line n x ++ line_end) out.old result out.new }
{
    let first = put_text(out, at, b"c wish ");
    let last = put_digits(out, first, n, x);
    put_byte(out, last, b'\n')
}

// Puts the line of a permutation, which has an image at least. One step an image.
fn put_permutation(out: &mut [u8], at: usize, e: &[u8]) -> usize
    requires { (1 ≤ length e.now) × (length e.now ≤ max_variables) × (at + longest_images ≤ places_end) }
    ensures { Put at (permutation_part (record { images = e.now })) out.old result
        out.new }
{
    let mut place = put_text(out, at, b"c exch");
    for image in e {
        place = put_field(out, place, b" ", *image as u64);
    }
    put_byte(out, place, b'\n')
}

// Puts the lines of all permutations. One step an image. Refusal 11 sees to what it requires.
pub fn put_permutations(out: &mut [u8], at: usize, permutations: Permutations<'_>) -> usize
    requires { (1 ≤ permutations.variables) × (permutations.variables ≤ max_variables)
        × (permutations.count * permutations.variables ≤ length permutations.images.now)
        × AllPermutations permutations.variables (permutations_of permutations)
        × (at + permutations.count * longest_images ≤ places_end) }
    ensures { Put at (flat_map permutation_part (permutations_of permutations.entry)) out.old result out.new }
{
    let mut place = at;
    for i in 0..permutations.count as usize {
        place = put_permutation(out, place, permutations.at(i));
    }
    place
}

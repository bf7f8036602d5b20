// The text that the program prints for a reply, put into lent bytes. Callers see to the room.
#![tactic(auto)]

ghost use Rattle.std.specs.Prelude.{◌+◌, ◌≤◌, ◌<◌, ◌*◌, length};
ghost use Rattle.formula.specs.Limits.{max_variables};
ghost use Rattle.search.specs.Contract.{reply_of_found};
ghost use Rattle.formula.specs.Reasons.{code_of};
ghost use Rattle.text_output.specs.Decimal.{line};
ghost use Rattle.program_text.specs.Report.{literal, literals, satisfiable_text, unsatisfiable_text, refused_text};
ghost use Rattle.program_text.specs.Report.{space, report_of, longest_literal, longest_text};
ghost use Rattle.program_text.specs.Laws.ReportLaws.{longest_head};
ghost use Rattle.text_output.specs.Laws.Putting.{places_end, Put};
ghost use Rattle.program_text.specs.Laws.Putting.{Printed};

use formula::Formula;
use formula::reasons::Refusal;
use points::{Point, member};
use search::Found;
use search_step::Conclusion;
use text_output::{put_field, put_line, put_text};

// A bound for the text of a literal, in bytes.
const LITERAL: usize = 4;

// A bound for the text of every reply, in bytes; the program's output and those who lend one have so many.
pub const LONGEST: usize = 15 + LITERAL * Formula::MAX_VARIABLES as usize + 3 + 38;

// P3: puts the name of bit i of a point, with a minus where the bit is 0. `put_literals` sees to the room.
fn put_literal(out: &mut [u8], at: usize, x: Point, i: u32) -> usize
    requires { (i < max_variables) × (at + longest_literal ≤ places_end) }
    ensures { Put at (literal x i) out.old result out.new }
{
    let name = i as u64 + 1;
    if member(x, i) {
        put_field(out, at, b" ", name)
    } else {
        put_field(out, at, b" -", name)
    }
}

// P3: puts the first n names of a point, ascending. One step a name. `put_satisfiable` sees to the room.
fn put_literals(out: &mut [u8], at: usize, x: Point, n: u32) -> usize
    requires { (n ≤ max_variables) × (at + longest_literal * n ≤ places_end) }
    ensures { Put at (literals x n) out.old result out.new }
{
    let mut place = at;
    for i in 0..n {
        place = put_literal(out, place, x, i);
    }
    place
}

// Puts the three lines of a point that meets all clauses. Like the functions after it, it leaves its requirement to
// `put_report`.
fn put_satisfiable(out: &mut [u8], n: u32, x: Point, distance: u32, filled: u32) -> usize
    requires { (n ≤ max_variables) × (longest_text ≤ length out.old) }
    ensures { Printed (satisfiable_text n x distance filled) out.old result out.new }
{
    let changes = distance as u64;
    let slots = filled as u64;
    let first = put_text(out, 0, b"s SATISFIABLE\nv");
    let second = put_literals(out, first, x, n);
    let third = put_text(out, second, b" 0\n");
    put_line(out, third, b"c changes ", changes, b" slots ", slots)
}

// Puts the two lines of a formula that no point meets.
fn put_unsatisfiable(out: &mut [u8], filled: u32) -> usize
    requires { longest_text ≤ length out.old }
    ensures { Printed (unsatisfiable_text filled) out.old result out.new }
{
    let place = put_field(out, 0, b"s UNSATISFIABLE\nc slots ", filled as u64);
    put_text(out, place, b"\n")
}

// Puts a line with two numbers behind a head that is not long.
fn put_pair(out: &mut [u8], head: &[u8], a: u32, b: u64) -> usize
    requires { (length head.now ≤ longest_head) × (longest_text ≤ length out.old) }
    ensures { Printed (line head.now a space b) out.old result out.new }
{
    put_line(out, 0, head, a as u64, b" ", b)
}

// Puts the line of a refusal. Callers see to the room.
pub fn put_refused(out: &mut [u8], refusal: Refusal) -> usize
    requires { longest_text ≤ length out.old }
    ensures { Printed (refused_text (code_of refusal.reason) refusal.place) out.old result out.new }
{
    put_pair(
        out,
        b"c refused ",
        refusal.reason.code(),
        refusal.place as u64,
    )
}

// Puts the text of a reply, for a formula of n variables, to the front of the output and answers its length. No text is
// longer than `LONGEST` where n is within its limit; `program::answer` sees to both.
pub fn put_report(out: &mut [u8], n: u32, r: Found) -> usize
    requires { (n ≤ max_variables) × (longest_text ≤ length out.old) }
    ensures { Printed (report_of n (reply_of_found r)) out.old result out.new }
{
    match r.answer {
        Ok(Conclusion::Satisfiable { distance, filled }) => {
            put_satisfiable(out, n, r.point, distance, filled)
        }
        Ok(Conclusion::Unsatisfiable { filled }) => put_unsatisfiable(out, filled),
        Ok(Conclusion::Unknown { bound, filled }) => {
            put_pair(out, b"s UNKNOWN\nc room ", bound, filled as u64)
        }
        Err(refusal) => put_refused(out, refusal),
    }
}

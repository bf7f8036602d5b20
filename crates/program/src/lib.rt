// What the program `nearest` prints for the bytes of a sheet, as a function.
#![tactic(auto)]

ghost use Rattle.std.specs.Prelude.{◌≡◌, ◌≤◌, length, take};
ghost use Rattle.formula.specs.Limits.{max_clauses};
ghost use Rattle.claims.specs.Claim.{formula_in};
ghost use Rattle.solver.specs.Solver.{sheet_reply};
ghost use Rattle.program_text.specs.Report.{longest_text, report_of};
ghost use Rattle.program_text.specs.Laws.Putting.{Printed};
ghost use Rattle.program_search.specs.Slots.{slots};
ghost use Rattle.program.specs.Program.{sheet_in, printed};
ghost use Rattle.program.specs.Laws.Contracts.{PrintedIn, Told};

use dimacs_arrays::FEW_CLAUSES;
use formula::Formula;
use formula::reasons::{Reason, Refusal};
use point_slices::Clauses;
use program_search::search_sheet;
use program_text::put_refused;
use solver::wants_room;

// P1: "a sheet of at most 65,536 bytes"
pub const MAX_INPUT: usize = 65536;

const MOST_CLAUSES: usize = Formula::MAX_CLAUSES as usize;

// Reads a text that is not too long, searches, and puts the text of the answer; or it answers the reader's refusal. The
// arrays for so many clauses, 16 bytes each, stay out of the frame of its caller. `read_sheet` sees to what it requires.
#[inline(never)]
fn print_with<const CLAUSES: usize>(text: &[u8], out: &mut [u8]) -> Result<usize, Refusal>
    requires { (CLAUSES ≤ max_clauses) × (longest_text ≤ length out.old) }
    ensures { PrintedIn CLAUSES text.now out.old result out.new }
{
    let mut positive = [0u64; CLAUSES];
    let mut negative = [0u64; CLAUSES];
    let parsed = dimacs::read(text, &mut positive, &mut negative);
    parsed.answer?;
    let clauses = Clauses {
        positive: &positive,
        negative: &negative,
    };
    Ok(search_sheet(parsed.formula, clauses, out))
}

// What was put, or else the text of the refusal, which is put in its place.
fn told(printed: Result<usize, Refusal>, out: &mut [u8]) -> usize
    requires { longest_text ≤ length out.old }
    ensures { Told printed out.old result out.new }
{
    match printed {
        Ok(size) => size,
        Err(refusal) => put_refused(out, refusal),
    }
}

// The same, with arrays for few clauses first, 4 KiB, and 64 KiB where the reader finds these too short, which the
// latter never are. `answer` sees to the room.
fn read_sheet(text: &[u8], out: &mut [u8]) -> usize
    requires { longest_text ≤ length out.old }
    ensures { Printed (report_of (formula_in (sheet_in text.now)).variables
        (sheet_reply (sheet_in text.now) slots)) out.old result out.new }
{
    let few = print_with::<FEW_CLAUSES>(text, out);
    if !wants_room(few) {
        return told(few, out);
    }
    let most = print_with::<MOST_CLAUSES>(text, out);
    told(most, out)
}

// P1, P4: what the program prints for an input: the bytes are put to the front of the output, and the answer is their
// number. The program's output array has as many bytes as bound every text.
pub fn answer(text: &[u8], out: &mut [u8]) -> usize
    requires { longest_text ≤ length out.old }
    ensures { Printed (printed text.now) out.old result out.new }
{
    if MAX_INPUT < text.len() {
        let refusal = Refusal {
            reason: Reason::LongText,
            place: MAX_INPUT,
        };
        return put_refused(out, refusal);
    }
    read_sheet(text, out)
}

// P1: the program's own step: what is to be printed for the first `count` bytes of a buffer. It stands at the front of
// the output. `nearest::respond` sees to what it requires.
pub fn printed_for<'a>(input: &[u8], count: usize, out: &'a mut [u8]) -> &'a [u8]
    requires { (count ≤ length input.now) × (longest_text ≤ length out.old) }
    ensures { result.now ≡ printed (take count input.now) }
{
    let size = answer(&input[..count], out);
    let text = &out[..];
    &text[..size]
}

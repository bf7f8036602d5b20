// The writer of texts: puts a formula with its clauses into lent bytes, as a text that the reader gives back as the
// same formula and clauses.
#![tactic(auto)]

ghost use Rattle.std.specs.Prelude.{◌≡◌, length};
ghost use Rattle.point_slices.specs.Slices.{slices_lent};
ghost use Rattle.formula.specs.Laws.Contracts.{formula_lent};
ghost use Rattle.formula.specs.Refusals.{room_fault, fault_of};
ghost use Rattle.text_output.specs.Laws.Putting.{Put};
ghost use Rattle.dimacs_text.specs.SheetText.{text_of};
ghost use Rattle.dimacs_text.specs.Writer.{text_fault};
ghost use Rattle.dimacs_writer.specs.Contract.{WroteSheet};
ghost use Rattle.dimacs_writer.specs.Laws.Writing.{Writable};

use dimacs_output::{put_clauses, put_permutations, put_target};
use formula::Formula;
use formula::reasons::{Reason, Refusal};
use formula::refusals::{formula_refusal, permutations_refusal};
use formula::view::FormulaView;
use point_slices::Clauses;
use text_output::put_line;

// A bound for every text, in bytes: the problem line, the target, a line a permutation, a line a clause.
pub const LONGEST: usize = 14
    + (Formula::MAX_VARIABLES as usize + 8)
    + Formula::MAX_PERMUTATIONS as usize * (Formula::MAX_VARIABLES as usize * 3 + 7)
    + Formula::MAX_CLAUSES as usize * (Formula::MAX_VARIABLES as usize * 7 + 2);

// Q02.2: "problem line, wish line, exchange lines, then a line a rule": puts the text of a formula to the front of the
// output, as far as that reaches, and answers its length. At most one step a byte. Refusals 10 and 11 see to what it
// requires.
fn put_sheet(out: &mut [u8], f: FormulaView<'_>, clauses: Clauses<'_>) -> usize
    requires { Writable (formula_lent f) (slices_lent clauses) }
    ensures { Put 0 (text_of (formula_lent f.entry) (slices_lent clauses.entry)) out.old result out.new }
{
    let numbers = f.numbers;
    let n = numbers.variables;
    let first = put_line(out, 0, b"p cnf ", n as u64, b" ", numbers.clauses as u64);
    let second = put_target(out, first, n, numbers.target);
    let third = put_permutations(out, second, f.permutations());
    put_clauses(out, third, n, clauses)
}

// The length of a formula's text: it is put to no bytes.
fn sheet_length(f: FormulaView<'_>, clauses: Clauses<'_>) -> usize
    requires { Writable (formula_lent f) (slices_lent clauses) }
    ensures { result ≡ length (text_of (formula_lent f.entry) (slices_lent clauses.entry)) }
{
    let mut nothing = [0u8; 0];
    put_sheet(&mut nothing, f, clauses)
}

// Refusal 19, for an output of `lent` bytes. One that no text exceeds is not measured against the text. Refusals 10 and
// 11 see to what it requires.
fn room_refusal(f: FormulaView<'_>, clauses: Clauses<'_>, lent: usize) -> Result<(), Refusal>
    requires { Writable (formula_lent f) (slices_lent clauses) }
    ensures { fault_of result ≡ room_fault (length (text_of (formula_lent f.entry) (slices_lent clauses.entry))) lent }
{
    if LONGEST <= lent {
        return Ok(());
    }
    let needed = sheet_length(f, clauses);
    if lent < needed {
        return Err(Refusal {
            reason: Reason::OutputRoom,
            place: needed,
        });
    }
    Ok(())
}

// Refusals 10, 11 and 19, in this order, for an output of `lent` bytes.
fn sheet_refusal(f: FormulaView<'_>, clauses: Clauses<'_>, lent: usize) -> Result<(), Refusal>
    ensures { fault_of result ≡ text_fault (formula_lent f.entry) (slices_lent clauses.entry) lent }
{
    formula_refusal(f.numbers, clauses)?;
    permutations_refusal(f.permutations())?;
    room_refusal(f, clauses, lent)
}

// The writer for a formula where it lies. The text is measured before it is written where the output is not `LONGEST`
// bytes long: both take the same steps.
pub fn write_lent(
    f: FormulaView<'_>,
    clauses: Clauses<'_>,
    out: &mut [u8],
) -> Result<usize, Refusal>
    ensures { WroteSheet (formula_lent f.entry) (slices_lent clauses.entry) out.old result out.new }
{
    let lent = out.len();
    sheet_refusal(f, clauses, lent)?;
    let size = put_sheet(out, f, clauses);
    Ok(size)
}

// Q02.4: "It gives 10, 11, then 19 for short output, otherwise the length; bytes past the text are unchanged." After a
// refusal `out` is as it was.
pub fn write(f: Formula, clauses: Clauses<'_>, out: &mut [u8]) -> Result<usize, Refusal>
    ensures { WroteSheet f (slices_lent clauses.entry) out.old result out.new }
{
    write_lent(f.view(), clauses, out)
}

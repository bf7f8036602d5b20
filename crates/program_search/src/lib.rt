// What the program prints for a sheet that was read: it is searched with few slots, and with 4,096 where these do not
// suffice.
#![tactic(auto)]

ghost use Rattle.std.specs.Prelude.{true, ◌≡◌, ◌≤◌, length};
ghost use Rattle.point_slices.specs.Slices.{slices_lent, clause_room, first_clauses};
ghost use Rattle.formula.specs.Limits.{max_variables, max_slots};
ghost use Rattle.search.specs.Contract.{reply_of_found};
ghost use Rattle.search.specs.Search.{search_reply};
ghost use Rattle.program_text.specs.Report.{longest_text, report_of};
ghost use Rattle.program_text.specs.Laws.Putting.{Printed};
ghost use Rattle.program_search.specs.Slots.{slots};
ghost use Rattle.program_search.specs.Laws.SettlingLaws.{Settles};

use formula::Formula;
use point_slices::{Clauses, first_points};
use points::Depth;
use program_text::put_report;
use search::{Found, search};
use search_step::Conclusion;

// P1: "with 4,096 slots"
const SLOTS: usize = 4096;

// How many slots a sheet is searched with first, since most are settled in fewer.
const FEW_SLOTS: usize = 256;

// Whether a search found an answer that stays with more slots.
fn is_settled(found: Found) -> bool
    ensures { result ≡ true → Settles (reply_of_found found) }
{
    matches!(
        found.answer,
        Ok(Conclusion::Satisfiable { .. } | Conclusion::Unsatisfiable { .. })
    )
}

// Searches with as many slots in local arrays, which stay out of the frame of its caller. The clauses stand at the front
// of two slices, as the reader leaves them. `search_sheet` hands on what it requires.
#[inline(never)]
fn search_with<const PLACES: usize>(f: Formula, clauses: Clauses<'_>) -> Found
    requires { (f.clauses ≤ clause_room (slices_lent clauses)) × (PLACES ≤ max_slots) }
    ensures { reply_of_found result ≡ search_reply f (first_clauses f.clauses (slices_lent clauses.entry)) PLACES }
{
    let mut points = [0u64; PLACES];
    let mut falsified = [0u32; PLACES];
    let mut depths = [0 as Depth; PLACES];
    let total = f.clauses as usize;
    let first = Clauses {
        positive: first_points(clauses.positive, total),
        negative: first_points(clauses.negative, total),
    };
    search(f, first, &mut points, &mut falsified, &mut depths)
}

// P1: "with 4,096 slots", 64 KiB, and the text of the answer is put. It searches with few slots first, 4 KiB: an answer
// that they suffice for stays with more. `program::print_with` sees to what it requires.
pub fn search_sheet(f: Formula, clauses: Clauses<'_>, out: &mut [u8]) -> usize
    requires { (f.clauses ≤ clause_room (slices_lent clauses))
        × (f.variables ≤ max_variables) × (longest_text ≤ length out.old) }
    ensures { Printed (report_of f.variables
        (search_reply f (first_clauses f.clauses (slices_lent clauses.entry)) slots)) out.old result out.new }
{
    let few = search_with::<FEW_SLOTS>(f, clauses);
    if is_settled(few) {
        return put_report(out, f.variables, few);
    }
    let found = search_with::<SLOTS>(f, clauses);
    put_report(out, f.variables, found)
}

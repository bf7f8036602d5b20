// The search (01: walk, builder): breadth first from the target, to the nearest satisfying point, a stable set, or
// the end of the room.
#![tactic(auto)]

ghost use Rattle.std.specs.Prelude.{◌≡◌};
ghost use Rattle.point_slices.specs.Slices.{slices_lent, slot_slices};
ghost use Rattle.formula.specs.Limits.{capacity};
ghost use Rattle.formula.specs.Refusals.{fault_of};
ghost use Rattle.formula.specs.Reply.{point_in, no_fault};
ghost use Rattle.formula.specs.Laws.Contracts.{formula_lent};
ghost use Rattle.search_loop.specs.Laws.Exploring.{reply_of_answer};
ghost use Rattle.search.specs.Search.{search_fault};
ghost use Rattle.search.specs.Contract.{reply_of_found, Searched};

use formula::Formula;
use formula::reasons::{Reason, Refusal};
use formula::refusals::problem_refusal;
use formula::room::room;
use formula::view::FormulaView;
use point_slices::Clauses;
use points::{Depth, Point};
use search_expansion::Frame;
use search_loop::Answer;
use search_step::Conclusion;

// What the search answers, or why it is refused, and the point that it hands back: 0 where it has none.
#[derive(Clone, Copy)]
pub struct Found {
    pub answer: Result<Conclusion, Refusal>,
    pub point: Point,
}

// What a search that was not refused answers.
fn as_found(a: Answer) -> Found
    ensures { (reply_of_found result ≡ reply_of_answer a) × (result.point ≡ point_in (reply_of_answer a)) }
{
    let point = match a.conclusion {
        Conclusion::Satisfiable { .. } => a.point,
        _ => points::EMPTY,
    };
    Found {
        answer: Ok(a.conclusion),
        point,
    }
}

// The search of a formula that refusals 10 to 13 let pass. It takes at most as many steps as slots are filled: each a
// scan of the clauses, one step for each permutation and each variable in which its point differs from the one before,
// and for each variable of a clause at most permutations + 2 look-ups, none of more than n + 1 comparisons.
pub fn search_accepted(
    f: FormulaView<'_>,
    clauses: Clauses<'_>,
    points: &mut [u64],
    falsified: &mut [u32],
    depths: &mut [Depth],
) -> Found
    requires { search_fault (formula_lent f) (slices_lent clauses)
        (capacity (slot_slices points.old falsified.old depths.old)) ≡ no_fault }
    ensures { Searched (formula_lent f.entry) (slices_lent clauses.entry)
        (slot_slices points.old falsified.old depths.old) result
        (slot_slices points.new falsified.new depths.new) }
{
    // each stage has heads of its own
    let g = Frame {
        permutations: f.permutations(),
        heads: 0,
        room: room(points, falsified, depths),
        target: f.numbers.target,
    };
    let answer = search_stages::start(g, clauses, points, falsified, depths);
    as_found(answer)
}

// Refusals 10 to 13, with so many slots lent.
fn search_refusal(f: FormulaView<'_>, clauses: Clauses<'_>, lent: usize) -> Result<(), Refusal>
    ensures { fault_of result ≡ search_fault (formula_lent f.entry) (slices_lent clauses.entry) lent }
{
    problem_refusal(f, clauses)?;
    if lent == 0 {
        return Err(Refusal {
            reason: Reason::NoSlot,
            place: 0,
        });
    }
    Ok(())
}

// The search of a formula where it lies, of which no copy is made.
pub fn search_lent(
    f: FormulaView<'_>,
    clauses: Clauses<'_>,
    points: &mut [u64],
    falsified: &mut [u32],
    depths: &mut [Depth],
) -> Found
    ensures { Searched (formula_lent f.entry) (slices_lent clauses.entry)
        (slot_slices points.old falsified.old depths.old) result
        (slot_slices points.new falsified.new depths.new) }
{
    let lent = room(points, falsified, depths);
    match search_refusal(f, clauses, lent) {
        Ok(()) => search_accepted(f, clauses, points, falsified, depths),
        Err(refusal) => Found {
            answer: Err(refusal),
            point: points::EMPTY,
        },
    }
}

// D2.2: searches from the formula's target, with the slots in the three lent slices; refusals 10 to 13 leave all three
// as they were.
pub fn search(
    f: Formula,
    clauses: Clauses<'_>,
    points: &mut [u64],
    falsified: &mut [u32],
    depths: &mut [Depth],
) -> Found
    ensures { Searched f (slices_lent clauses.entry)
        (slot_slices points.old falsified.old depths.old) result
        (slot_slices points.new falsified.new depths.new) }
{
    search_lent(f.view(), clauses, points, falsified, depths)
}

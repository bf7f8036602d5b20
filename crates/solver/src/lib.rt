// Reader, search, writer and checker in one call. Its contract has demand 3's sentences about what it returns.
#![tactic(auto)]

ghost use Rattle.std.specs.Prelude.{List, ◌≡◌, ℕ, ◌≤◌, length, take};
ghost use Rattle.point_slices.specs.Slices.{slices_lent, slot_slices, clause_room, first_clauses};
ghost use Rattle.formula.specs.Limits.{max_clauses};
ghost use Rattle.formula.specs.Reply.{accepted};
ghost use Rattle.formula.specs.Laws.Contracts.{formula_lent, formula_with};
ghost use Rattle.checker.specs.Checker.{check_reply};
ghost use Rattle.claims.specs.Claim.{from_text, by_value};
ghost use Rattle.solver.specs.Solver.{blank};
ghost use Rattle.solver.specs.Contract.{Solved};
ghost use Rattle.solver.specs.Laws.Steps.{Refuted, Certifies, unsatisfiable_with, settled_of, wants_room, SolvedIn};

use dimacs_arrays::FEW_CLAUSES;
use formula::reasons::{Reason, Refusal};
use formula::view::FormulaView;
use formula::{Formula, Numbers};
use point_slices::{Clauses, first_points};
use points::{Depth, Point};
use search_step::Conclusion;

// How many clauses the first arrays have room for, since each array is made 0 first.
const TINY_CLAUSES: usize = 32;

// The longest text that is tried with them, eight bytes a clause. A longer one mostly has more clauses, and what stands
// before its problem line, often a comment for each variable, would be read twice.
const TINY_TEXT: usize = 256;

const MOST_CLAUSES: usize = Formula::MAX_CLAUSES as usize;

// What the solver answers to a formula. A certificate is `size` bytes at the front of the output, written and checked;
// where the output has no room for the bytes needed, nothing is put there.
#[derive(Clone, Copy)]
pub enum Solution {
    Satisfiable { distance: u32, filled: u32 },
    Unsatisfiable { filled: u32, size: usize },
    Uncertified { filled: u32, needed: usize },
    Unknown { bound: u32, filled: u32 },
}

// The answer or the refusal, and the point handed back, 0 where there is none.
#[derive(Clone, Copy)]
pub struct Settled {
    pub answer: Result<Solution, Refusal>,
    pub point: Point,
}

// Has the certificate in the first `size` bytes checked. `certify` sees to what it requires: the checker, to which no
// image matters, accepts it.
fn confirm(
    f: Numbers,
    clauses: Clauses<'_>,
    file: &[u8],
    size: usize,
    filled: u32,
) -> Result<Solution, Refusal>
    requires { (size ≤ length file.now) × ((images : List ℕ) × (check_reply (formula_with f images)
        (slices_lent clauses) (take size file.now) ≡ accepted)) }
    ensures { result ≡ unsatisfiable_with filled size }
{
    checker::check_numbers(f, clauses, &file[..size])?;
    Ok(Solution::Unsatisfiable { filled, size })
}

// D3.4: writes the certificate of slots that a search left and has it checked. `solve_lent` sees to what it requires.
fn certify(
    f: FormulaView<'_>,
    clauses: Clauses<'_>,
    points: &[u64],
    falsified: &[u32],
    depths: &[Depth],
    filled: u32,
    out: &mut [u8],
) -> Result<Solution, Refusal>
    requires { Refuted (formula_lent f) (slices_lent clauses) (slot_slices points.now falsified.now depths.now) filled }
    ensures { Certifies (formula_lent f.entry) (slices_lent clauses.entry)
        (slot_slices points.now falsified.now depths.now) filled out.old result out.new }
{
    match certificate_writer::write_lent(f, clauses, points, falsified, depths, filled, out) {
        Ok(size) => confirm(f.numbers, clauses, out, size, filled),
        Err(refusal) => Ok(Solution::Uncertified {
            filled,
            needed: refusal.place,
        }),
    }
}

// The solver for a formula where it lies, of which no copy is made.
fn solve_lent(
    f: FormulaView<'_>,
    clauses: Clauses<'_>,
    points: &mut [u64],
    falsified: &mut [u32],
    depths: &mut [Depth],
    out: &mut [u8],
) -> Settled
    ensures { Solved (by_value (formula_lent f.entry) (slices_lent clauses.entry))
        (slot_slices points.old falsified.old depths.old) out.old result
        (slot_slices points.new falsified.new depths.new) out.new }
{
    let found = search::search_lent(f, clauses, points, falsified, depths);
    let point = found.point;
    match found.answer {
        Ok(Conclusion::Satisfiable { distance, filled }) => Settled {
            answer: Ok(Solution::Satisfiable { distance, filled }),
            point,
        },
        Ok(Conclusion::Unsatisfiable { filled }) => Settled {
            answer: certify(f, clauses, points, falsified, depths, filled, out),
            point: points::EMPTY,
        },
        Ok(Conclusion::Unknown { bound, filled }) => Settled {
            answer: Ok(Solution::Unknown { bound, filled }),
            point,
        },
        Err(refusal) => Settled {
            answer: Err(refusal),
            point,
        },
    }
}

// The solver for a formula by value, with its clauses in two slices.
pub fn solve_formula(
    f: Formula,
    clauses: Clauses<'_>,
    points: &mut [u64],
    falsified: &mut [u32],
    depths: &mut [Depth],
    out: &mut [u8],
) -> Settled
    ensures { Solved (by_value f (slices_lent clauses.entry))
        (slot_slices points.old falsified.old depths.old) out.old result
        (slot_slices points.new falsified.new depths.new) out.new }
{
    solve_lent(f.view(), clauses, points, falsified, depths, out)
}

// The same for a formula whose clauses stand at the front of two slices, as the reader leaves them. Its callers see to
// what it requires.
fn solve_read(
    f: FormulaView<'_>,
    clauses: Clauses<'_>,
    points: &mut [u64],
    falsified: &mut [u32],
    depths: &mut [Depth],
    out: &mut [u8],
) -> Settled
    requires { f.numbers.clauses ≤ clause_room (slices_lent clauses) }
    ensures { Solved (by_value (formula_lent f.entry) (first_clauses f.entry.numbers.clauses (slices_lent clauses.entry)))
        (slot_slices points.old falsified.old depths.old) out.old result
        (slot_slices points.new falsified.new depths.new) out.new }
{
    let total = f.numbers.clauses as usize;
    let first = Clauses {
        positive: first_points(clauses.positive, total),
        negative: first_points(clauses.negative, total),
    };
    solve_lent(f, first, points, falsified, depths, out)
}

// The solver with arrays for so many clauses, 16 bytes each, which stay out of the frame of its caller; or the reader's
// refusal, which may be that these are too short.
#[inline(never)]
fn solve_with<const CLAUSES: usize>(
    text: &[u8],
    points: &mut [u64],
    falsified: &mut [u32],
    depths: &mut [Depth],
    out: &mut [u8],
) -> Result<Settled, Refusal>
    requires { CLAUSES ≤ max_clauses }
    ensures { SolvedIn CLAUSES text.now (slot_slices points.old falsified.old depths.old) out.old result
        (slot_slices points.new falsified.new depths.new) out.new }
{
    let mut positive = [0u64; CLAUSES];
    let mut negative = [0u64; CLAUSES];
    let mut images = [0u8; Formula::MAX_IMAGES];
    let numbers = dimacs::read_lent(text, &mut positive, &mut negative, &mut images)?;
    let f = FormulaView {
        numbers,
        images: &images,
    };
    let clauses = Clauses {
        positive: &positive,
        negative: &negative,
    };
    Ok(solve_read(f, clauses, points, falsified, depths, out))
}

// Whether a text was refused since the arrays lent for its clauses are too short: larger ones may do.
pub fn wants_room<T: Copy>(answer: Result<T, Refusal>) -> bool
    ensures { result ≡ wants_room answer }
{
    match answer {
        Ok(_) => false,
        Err(refusal) => refusal.reason == Reason::ClauseRoom,
    }
}

// What was settled, or the reader's refusal, which has no point.
fn as_settled(answer: Result<Settled, Refusal>) -> Settled
    ensures { result ≡ settled_of answer }
{
    match answer {
        Ok(s) => s,
        Err(refusal) => Settled {
            answer: Err(refusal),
            point: points::EMPTY,
        },
    }
}

// The solver for a text with more clauses than the smallest arrays have room for, or a long one: with 4 KiB of clauses,
// and 64 KiB where the reader finds these too short, which the latter never are.
fn solve_larger(
    text: &[u8],
    points: &mut [u64],
    falsified: &mut [u32],
    depths: &mut [Depth],
    out: &mut [u8],
) -> Settled
    ensures { Solved (from_text text.now blank)
        (slot_slices points.old falsified.old depths.old) out.old result
        (slot_slices points.new falsified.new depths.new) out.new }
{
    let few = solve_with::<FEW_CLAUSES>(text, points, falsified, depths, out);
    if !wants_room(few) {
        return as_settled(few);
    }
    let most = solve_with::<MOST_CLAUSES>(text, points, falsified, depths, out);
    as_settled(most)
}

// K3, the product's main promise: reads a text, searches, and writes and checks the certificate of one that cannot be
// met. The clauses and the images stay in local arrays, so that after a refusal nothing that was lent has changed. Each
// is made 0: for a short text 512 bytes of clauses and 1 KiB of images first, and larger ones where the reader finds
// these too short (refusal 4), which it tells from the problem line.
pub fn solve(
    text: &[u8],
    points: &mut [u64],
    falsified: &mut [u32],
    depths: &mut [Depth],
    out: &mut [u8],
) -> Settled
    ensures { Solved (from_text text.now blank)
        (slot_slices points.old falsified.old depths.old) out.old result
        (slot_slices points.new falsified.new depths.new) out.new }
{
    if TINY_TEXT < text.len() {
        return solve_larger(text, points, falsified, depths, out);
    }
    let tiny = solve_with::<TINY_CLAUSES>(text, points, falsified, depths, out);
    if !wants_room(tiny) {
        return as_settled(tiny);
    }
    solve_larger(text, points, falsified, depths, out)
}

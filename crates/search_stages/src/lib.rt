// The search from the target, in stages: each goes on where the one before paused, with an index for more points and
// the numbers that the tests of levels found. So what a search pays to make its arrays 0 follows the slots that it
// fills, and not those that it is lent.
#![tactic(auto)]

ghost use Rattle.std.specs.Prelude.{[], ◌∷◌, ◌≤◌};
ghost use Rattle.point_slices.specs.Laws.Contracts.{clauses_lent};
ghost use Rattle.point_slices.specs.Slices.{slot_slices};
ghost use Rattle.search_theory.specs.Walk.{slot};
ghost use Rattle.search_expansion.specs.Laws.Memory.{Lends};
ghost use Rattle.search_step.specs.Laws.Stepping.{framed, Searchable, Ended};
ghost use Rattle.search_loop.specs.Laws.Exploring.{reply_of_answer, Concludes};
ghost use Rattle.search_indexed.specs.Laws.StageLaws.{Staged, few_heads};

use point_slices::Clauses;
use points::Depth;
use search_expansion::{Frame, Visit, fill};
use search_indexed::explore_stage;
use search_level::Position;
use search_loop::Answer;
use search_stages_large::third;

// The heads of the first two stages' indexes: for the dozens of slots that most searches fill, and for some hundreds;
// `search_stages_large` has those for thousands, and for all that there can be. A stage pauses where a step might fill
// more slots than it has heads, one for each variable: so the first has as many heads as there can be variables, and as
// many again.
const TINY_HEADS: usize = 128;

const FEW_HEADS: usize = 512;

// How many links each index has, a third of them heads.
const TINY_LINKS: usize = 3 * TINY_HEADS;

const FEW_LINKS: usize = 3 * FEW_HEADS;

// The second stage: up to 512 slots, 7 KiB of links and numbers.
#[inline(never)]
fn second(
    g: Frame<'_>,
    clauses: Clauses<'_>,
    points: &mut [u64],
    falsified: &mut [u32],
    depths: &mut [Depth],
    earlier: &[u16],
    from: Position,
) -> Answer
    requires { (from.filled ≤ few_heads)
        × Staged g (clauses_lent clauses) (slot_slices points.old falsified.old depths.old) from earlier.now }
    ensures { Concludes
        (framed g.entry (clauses_lent clauses.entry)) g.entry.room
        (slot_slices points.old falsified.old depths.old) from (reply_of_answer result)
        (slot_slices points.new falsified.new depths.new) }
{
    let mut found = [0u16; FEW_HEADS];
    match explore_stage::<{ FEW_LINKS }>(
        g, clauses, points, falsified, depths, earlier, &mut found, from,
    ) {
        Ok(answer) => answer,
        Err(at) => third(g, clauses, points, falsified, depths, &found, at),
    }
}

// W3: stores the target in the first slot and searches from there; up to 128 slots in the first stage, 1.75 KiB of
// links and numbers. `search::search` sees to what it requires, by refusals 10 to 13.
pub fn start(
    g: Frame<'_>,
    clauses: Clauses<'_>,
    points: &mut [u64],
    falsified: &mut [u32],
    depths: &mut [Depth],
) -> Answer
    requires { Searchable g (clauses_lent clauses)
        × Lends g.room (slot_slices points.old falsified.old depths.old) }
    ensures { Ended
        (framed g.entry (clauses_lent clauses.entry)) g.entry.room
        (slot_slices points.old falsified.old depths.old) []
        (slot g.entry.target 0 0 ∷ []) (reply_of_answer result)
        (slot_slices points.new falsified.new depths.new) }
{
    let first = Visit {
        point: g.target,
        depth: 0,
    };
    fill(points, falsified, depths, 0, first);
    let from = Position { at: 0, filled: 1 };
    let mut found = [0u16; TINY_HEADS];
    match explore_stage::<{ TINY_LINKS }>(
        g,
        clauses,
        points,
        falsified,
        depths,
        &[0],
        &mut found,
        from,
    ) {
        Ok(answer) => answer,
        Err(at) => second(g, clauses, points, falsified, depths, &found, at),
    }
}

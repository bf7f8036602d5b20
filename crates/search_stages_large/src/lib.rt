// The last two stages of a search, for more slots than most searches fill.
#![tactic(auto)]

ghost use Rattle.std.specs.Prelude.{◌≤◌};
ghost use Rattle.point_slices.specs.Laws.Contracts.{clauses_lent};
ghost use Rattle.point_slices.specs.Slices.{slot_slices};
ghost use Rattle.formula.specs.Limits.{max_slots};
ghost use Rattle.search_step.specs.Laws.Stepping.{framed};
ghost use Rattle.search_loop.specs.Laws.Exploring.{reply_of_answer, Concludes};
ghost use Rattle.search_indexed.specs.Laws.StageLaws.{Staged, many_heads};

use formula::Formula;
use point_slices::Clauses;
use points::Depth;
use search_expansion::Frame;
use search_indexed::explore_stage;
use search_level::Position;
use search_loop::Answer;

// The heads of the last two stages' indexes: for thousands of slots, and for all that there can be.
const MANY_HEADS: usize = 8192;

const MOST_HEADS: usize = Formula::MAX_SLOTS as usize;

// How many links each index has, a third of them heads.
const MANY_LINKS: usize = 3 * MANY_HEADS;

const MOST_LINKS: usize = 3 * MOST_HEADS;

// The last stage: an index for all the slots that there can be, so that it never pauses; 768 KiB of links and 128 KiB of
// numbers.
#[inline(never)]
fn last(
    g: Frame<'_>,
    clauses: Clauses<'_>,
    points: &mut [u64],
    falsified: &mut [u32],
    depths: &mut [Depth],
    earlier: &[u16],
    from: Position,
) -> Answer
    requires { (from.filled ≤ max_slots)
        × Staged g (clauses_lent clauses) (slot_slices points.old falsified.old depths.old) from earlier.now }
    ensures { Concludes
        (framed g.entry (clauses_lent clauses.entry)) g.entry.room
        (slot_slices points.old falsified.old depths.old) from (reply_of_answer result)
        (slot_slices points.new falsified.new depths.new) }
{
    let mut found = [0u16; MOST_HEADS];
    match explore_stage::<{ MOST_LINKS }>(
        g, clauses, points, falsified, depths, earlier, &mut found, from,
    ) {
        Ok(answer) => answer,
        Err(_) => unreachable!(),
    }
}

// The third stage: up to 8,192 slots, 96 KiB of links, which are gone when the last stage begins, and 16 KiB of numbers.
// It is no part of its caller's frame, which most searches use. `search_stages::second` sees to what it requires.
#[inline(never)]
pub fn third(
    g: Frame<'_>,
    clauses: Clauses<'_>,
    points: &mut [u64],
    falsified: &mut [u32],
    depths: &mut [Depth],
    earlier: &[u16],
    from: Position,
) -> Answer
    requires { (from.filled ≤ many_heads)
        × Staged g (clauses_lent clauses) (slot_slices points.old falsified.old depths.old) from earlier.now }
    ensures { Concludes
        (framed g.entry (clauses_lent clauses.entry)) g.entry.room
        (slot_slices points.old falsified.old depths.old) from (reply_of_answer result)
        (slot_slices points.new falsified.new depths.new) }
{
    let mut found = [0u16; MANY_HEADS];
    match explore_stage::<{ MANY_LINKS }>(
        g, clauses, points, falsified, depths, earlier, &mut found, from,
    ) {
        Ok(answer) => answer,
        Err(at) => last(g, clauses, points, falsified, depths, &found, at),
    }
}

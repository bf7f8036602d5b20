// What the stages of a search share: the numbers found carried from one to the next, and an index made of the points
// filled with which a stage explores on. The stages stand in `search_stages` and `search_stages_large`.
#![tactic(auto)]

ghost use Rattle.std.specs.Prelude.{◌≡◌, ◌≤◌, length, take};
ghost use Rattle.math.specs.Lists.{over};
ghost use Rattle.point_slices.specs.Laws.Contracts.{clauses_lent};
ghost use Rattle.point_slices.specs.Slices.{slot_slices};
ghost use Rattle.search_loop.specs.Laws.Exploring.{Explores};
ghost use Rattle.search_indexed.specs.Laws.StageLaws.{headed_by, Sizes, Staged};

use check_distinct::index_points;
use point_slices::Clauses;
use points::Depth;
use search_expansion::Frame;
use search_level::Position;
use search_loop::{Answer, explore};

// The numbers found for the first `count` slots, from one stage to the next. One step a slot: with the library's copy the
// archives for C would need `memmove`. `explore_stage` sees to the room.
pub fn carry(earlier: &[u16], found: &mut [u16], count: usize)
    requires { (count ≤ length earlier.now) × (count ≤ length found.old) }
    ensures { found.new ≡ over (take count earlier.now) found.old }
{
    for i in 0..count {
        found[i] = earlier[i];
    }
}

// Explores as one stage does, from a position on: with the numbers found that the stage before hands on, and an index of
// as many points as there is room for numbers, made here of those filled, one look-up each. The stack holds its links
// while it runs, and no longer. The stages see to what it requires.
#[inline(never)]
pub fn explore_stage<const LINKS: usize>(
    g: Frame<'_>,
    clauses: Clauses<'_>,
    points: &mut [u64],
    falsified: &mut [u32],
    depths: &mut [Depth],
    earlier: &[u16],
    found: &mut [u16],
    from: Position,
) -> Result<Answer, Position>
    requires { Sizes (length found.old) LINKS × (from.filled ≤ length found.old)
        × Staged g (clauses_lent clauses) (slot_slices points.old falsified.old depths.old) from earlier.now }
    ensures { Explores (headed_by (length found.old) g.entry) (clauses_lent clauses.entry)
        (slot_slices points.old falsified.old depths.old) from result
        (slot_slices points.new falsified.new depths.new) found.new }
{
    carry(earlier, found, from.filled);
    let mut links = [0u32; LINKS];
    let headed = Frame {
        heads: found.len(),
        ..g
    };
    let n = g.permutations.variables;
    index_points(n, points, &mut links, headed.heads, from.filled);
    explore(
        headed, clauses, points, falsified, depths, &mut links, found, from,
    )
}

// The flips of one point by the variables of a clause, lowest first: each that is not covered fills the next slot and
// enters the index (01: "the point with that name flipped, if not covered by the filled slots, fills the next slot").
#![tactic(auto)]

ghost use Rattle.std.specs.Prelude.{◌+◌, ◌<◌, ◌^◌, length};
ghost use Rattle.math.specs.Bits.{members};
ghost use Rattle.point_slices.specs.Slices.{points_of, slot_slices};
ghost use Rattle.search_expansion.specs.Laws.Memory.{Stored};
ghost use Rattle.search_expansion.specs.Laws.Filling.{listed_in, visited, Fillable, Headed, SlotsIndexed, Follows};
ghost use Rattle.search_expansion.specs.Laws.Filling.{filled_in, Tries, Expands};

use permutation_coverage::flip_covered;
use permutation_images::Permutations;
use point_index::Index;
use point_slices::put_point;
use points::{Depth, Point};

// What stays the same while slots are filled: the permutations, how many heads the index has, the number of slots, and
// the target. The heads are those of a stage; `search::search`, which makes no index, sets none.
#[derive(Clone, Copy)]
pub struct Frame<'a> {
    pub permutations: Permutations<'a>,
    pub heads: usize,
    pub room: usize,
    pub target: Point,
}

// A point that the search comes to, and its depth.
#[derive(Clone, Copy)]
pub struct Visit {
    pub point: Point,
    pub depth: Depth,
}

// Fills the slot of index i with a point, its depth, and 0 for its clause, as no slot is processed that is just filled.
// A caller fills slots below the shortest length lent.
pub fn fill(points: &mut [u64], falsified: &mut [u32], depths: &mut [Depth], i: usize, new: Visit)
    requires { (i < length falsified.old) × (i < length depths.old) }
    ensures { Stored (slot_slices points.old falsified.old depths.old) i
        (visited new)
        (slot_slices points.new falsified.new depths.new) }
{
    put_point(points, i, new.point);
    falsified[i] = 0;
    depths[i] = new.depth;
}

// W7, W8: tries a point with the variable v flipped: unless it is covered it fills the next slot, one deeper, if there
// is one. It and its image under each permutation, one step each, are looked up in the index of the filled slots:
// permutations + 1 look-ups of at most n + 1 comparisons, and one more where a slot is filled. It answers how many slots
// are filled then: an error where none was left for it. `expand` hands on what it requires.
pub fn try_flip(
    g: Frame<'_>,
    points: &mut [u64],
    falsified: &mut [u32],
    depths: &mut [Depth],
    links: &mut [u32],
    moved: &[u64],
    filled: usize,
    from: Visit,
    v: u32,
) -> Result<usize, usize>
    requires { Fillable g (slot_slices points.old falsified.old depths.old) links.old
        (points_of moved.now) filled from × Headed g (filled + 1) × (v < g.permutations.variables) }
    ensures { Tries (listed_in g.entry) g.entry.room from v filled
        (slot_slices points.old falsified.old depths.old) result
        (slot_slices points.new falsified.new depths.new)
        × Follows g.entry filled (slot_slices points.new falsified.new depths.new)
        links.new (filled_in result) }
{
    let index = Index {
        heads: g.heads,
        points,
        links,
        count: filled,
    };
    if flip_covered(g.permutations, index, moved, from.point, v) {
        return Ok(filled);
    }
    if g.room <= filled {
        return Err(filled);
    }
    let n = g.permutations.variables;
    let flipped = points::flip(from.point, v);
    point_index::add(n, points, links, g.heads, filled, flipped);
    let new = Visit {
        point: flipped,
        depth: from.depth + 1,
    };
    fill(points, falsified, depths, filled, new);
    Ok(filled + 1)
}

// W7: tries the flips of the variables of a set, lowest first, until one finds no room; `moved` has the images of the
// point. At most n flips, and permutations + 2 look-ups for each. It answers how many slots are filled then: an error
// where one flip found none left. `process` sees to what it requires, by refusal 10 for the set.
pub fn expand(
    g: Frame<'_>,
    points: &mut [u64],
    falsified: &mut [u32],
    depths: &mut [Depth],
    links: &mut [u32],
    moved: &[u64],
    filled: usize,
    from: Visit,
    listed: Point,
) -> Result<usize, usize>
    requires { Fillable g (slot_slices points.old falsified.old depths.old) links.old
        (points_of moved.now) filled from × Headed g (filled + g.permutations.variables)
        × (listed < 2 ^ g.permutations.variables) }
    ensures { Expands (listed_in g.entry) g.entry.room from (members g.entry.permutations.variables listed)
        filled (slot_slices points.old falsified.old depths.old) result
        (slot_slices points.new falsified.new depths.new)
        × SlotsIndexed g.entry (slot_slices points.new falsified.new depths.new)
        links.new (filled_in result) }
{
    let mut left = listed;
    let mut v = points::next_variable(left);
    let mut filled = filled;
    while v < g.permutations.variables {
        filled = try_flip(g, points, falsified, depths, links, moved, filled, from, v)?;
        left = points::flip(left, v);
        v = points::next_variable(left);
    }
    Ok(filled)
}

// One step of the search: the slot that is next is processed.
#![tactic(auto)]

ghost use Rattle.point_slices.specs.Laws.Contracts.{clauses_lent};
ghost use Rattle.point_slices.specs.Slices.{points_of, slot_slices};
ghost use Rattle.search_step.specs.Laws.Stepping.{framed, Processable, Steps, StillLinked, StillThere};

use point_slices::{Clauses, point_at};
use points::Depth;
use search_expansion::{Frame, Visit, expand};
use search_level::Position;

// A slot that is taken: where the search stands, and the number of the clause that its point falsifies first.
#[derive(Clone, Copy)]
pub struct Turn {
    pub position: Position,
    pub number: u32,
}

// What a search that is not refused comes to, beside the point that it hands back. Of an unknown result the bound is a
// number of variables: every satisfying point differs from the target in at least so many.
#[derive(Clone, Copy)]
pub enum Conclusion {
    Satisfiable { distance: u32, filled: u32 },
    Unsatisfiable { filled: u32 },
    Unknown { bound: u32, filled: u32 },
}

// W6, W7, Q03.4: processes a slot whose level is tested: the number of the clause that its point falsifies first is
// stored, and then the flips of that clause's variables are tried; `moved` has the images of the point. At most n times
// permutations + 2 look-ups. It answers how many slots are filled then, or, where a flip found no room, the search's
// conclusion. `explore` sees to what it requires.
pub fn process(
    g: Frame<'_>,
    clauses: Clauses<'_>,
    points: &mut [u64],
    falsified: &mut [u32],
    depths: &mut [Depth],
    links: &mut [u32],
    moved: &[u64],
    turn: Turn,
) -> Result<usize, Conclusion>
    requires { Processable g (clauses_lent clauses) (slot_slices points.old falsified.old depths.old)
        links.old (points_of moved.now) turn }
    ensures { Steps
        (framed g.entry (clauses_lent clauses.entry)) g.entry.room
        (slot_slices points.old falsified.old depths.old) turn.position result
        (slot_slices points.new falsified.new depths.new)
        × StillLinked g.entry (slot_slices points.new falsified.new depths.new)
        links.new result
        × StillThere (slot_slices points.old falsified.old depths.old)
        turn.position result (slot_slices points.new falsified.new depths.new) }
{
    let at = turn.position.at;
    let from = Visit {
        point: point_at(points, at),
        depth: depths[at],
    };
    falsified[at] = turn.number;
    let clause = clauses.at(turn.number as usize - 1);
    let listed = points::listed(clause);
    let filled = turn.position.filled;
    match expand(
        g, points, falsified, depths, links, moved, filled, from, listed,
    ) {
        Ok(filled) => Ok(filled),
        Err(filled) => {
            let bound = from.depth + 1;
            let filled = filled as u32;
            Err(Conclusion::Unknown { bound, filled })
        }
    }
}

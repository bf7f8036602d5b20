// The loop of the search: slots are processed one by one, oldest first, from whichever slot it is to go on, and at
// every new depth the level is tested first.
#![tactic(auto)]

ghost use Rattle.std.specs.Prelude.{◌&&◌, ◌≡◌, ◌+◌, ◌≤◌, ltb};
ghost use Rattle.point_slices.specs.Laws.Contracts.{clauses_lent};
ghost use Rattle.point_slices.specs.Slices.{slot_slices};
ghost use Rattle.formula.specs.Limits.{max_variables, max_slots};
ghost use Rattle.formula.specs.Reply.{satisfiable, unsatisfiable};
ghost use Rattle.points.specs.Points.{point_digits, distance};
ghost use Rattle.search_loop.specs.Laws.Exploring.{reply_of_answer, Explorable, Explores};

use formula::Formula;
use permutation_coverage::move_images;
use point_slices::{Clauses, point_at};
use points::{Depth, Point};
use search_expansion::Frame;
use search_level::{Position, test_level};
use search_step::{Conclusion, Turn, process};

// What a search that is not refused comes to: its conclusion, and the point that it hands back, where there is one; else
// the point tells nothing.
#[derive(Clone, Copy)]
pub struct Answer {
    pub conclusion: Conclusion,
    pub point: Point,
}

// Whether one more step might fill more slots than the index has heads.
fn outgrown(g: Frame<'_>, filled: usize) -> bool
    requires { (filled ≤ max_slots) × (g.permutations.variables ≤ max_variables) }
    ensures { result ≡ ltb g.entry.heads g.entry.room
        && ltb g.entry.heads (filled + g.entry.permutations.variables) }
{
    g.heads < g.room && g.heads < filled + g.permutations.variables as usize
}

// Q03.2: "the one smallest as a number is now handed back": the point that a level's test found.
fn handed_back(g: Frame<'_>, point: Point, filled: usize) -> Answer
    requires { filled ≤ max_slots }
    ensures { reply_of_answer result ≡ satisfiable point (distance point_digits point g.entry.target) filled }
{
    let distance = points::distance(point, g.target);
    let filled = filled as u32;
    let conclusion = Conclusion::Satisfiable { distance, filled };
    Answer { conclusion, point }
}

// W9: "None left: answer cannot be met, with slots filled."
fn exhausted(filled: usize) -> Answer
    requires { filled ≤ max_slots }
    ensures { reply_of_answer result ≡ unsatisfiable filled }
{
    let filled = filled as u32;
    Answer {
        conclusion: Conclusion::Unsatisfiable { filled },
        point: points::EMPTY,
    }
}

// W4, W9, Q03.3: takes the slots one after the other, from a position on, until a level's test finds a point, a slot
// has no room for its flips, none is left, or the index might be too small: then it pauses, and the error says where. At
// most `room` steps, each point tested once; from one step to the next the images of the points are turned, one step for
// each permutation and each variable in which the points differ. Its callers see to what it requires: they have stored
// the target, indexed the points and carried the numbers found.
pub fn explore(
    g: Frame<'_>,
    clauses: Clauses<'_>,
    points: &mut [u64],
    falsified: &mut [u32],
    depths: &mut [Depth],
    links: &mut [u32],
    found: &mut [u16],
    from: Position,
) -> Result<Answer, Position>
    requires { Explorable g (clauses_lent clauses) (slot_slices points.old falsified.old depths.old) links.old
        found.old from }
    ensures { Explores g.entry (clauses_lent clauses.entry)
        (slot_slices points.old falsified.old depths.old) from result
        (slot_slices points.new falsified.new depths.new) found.new }
{
    let mut moved = [0u64; Formula::MAX_PERMUTATIONS as usize];
    let mut seen = points::EMPTY;
    let mut position = from;
    while position.at < position.filled {
        if outgrown(g, position.filled) {
            return Err(position);
        }
        if let Some(point) = test_level(clauses, points, depths, found, position) {
            return Ok(handed_back(g, point, position.filled));
        }
        let x = point_at(points, position.at);
        move_images(g.permutations, &mut moved, seen, x);
        seen = x;
        let number = found.get(position.at).copied().unwrap_or(0) as u32;
        let turn = Turn { position, number };
        match process(g, clauses, points, falsified, depths, links, &moved, turn) {
            Ok(filled) => {
                let at = position.at + 1;
                position = Position { at, filled };
            }
            Err(conclusion) => return Ok(Answer {
                conclusion,
                point: x,
            }),
        }
    }
    Ok(exhausted(position.filled))
}

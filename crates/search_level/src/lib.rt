// The test of a level: before a slot of a new depth is processed, the points of all slots of that depth are tested, and
// the smallest that satisfies is the answer. What the test finds is kept, so that no point is tested twice.
#![tactic(auto)]

ghost use Rattle.std.specs.Prelude.{◌≡◌};
ghost use Rattle.point_slices.specs.Laws.Contracts.{clauses_lent};
ghost use Rattle.point_slices.specs.Slices.{points_of};
ghost use Rattle.search_level.specs.Laws.Testing.{opens_at, Better, Testable, Scans, Found, Tests};

use point_slices::{Clauses, number_at, point_at, put};
use points::{Depth, Point};

// Where a search stands: the index of the slot that is next, and how many are filled.
#[derive(Clone, Copy)]
pub struct Position {
    pub at: usize,
    pub filled: usize,
}

// Whether the slot of index `at` is the first of its depth: depths ascend, so the one before it tells.
fn opens(depths: &[Depth], at: usize) -> bool
    ensures { result ≡ opens_at depths.now at }
{
    at == 0 || number_at(depths, at - 1) < number_at(depths, at)
}

// The best of some points, which is the smallest that satisfies all clauses, and one more, x, of which `number` is the
// clause that it falsifies first, 0 for none.
fn better(best: Option<Point>, x: Point, number: usize) -> Option<Point>
    ensures { Better best x number result }
{
    if number != 0 {
        return best;
    }
    match best {
        Some(least) if points::less(least, x) => best,
        _ => Some(x),
    }
}

// Tests the points of the slots that wait, and keeps the number of the clause that each falsifies first, 0 for none: no
// clause has a number that 16 bits do not hold. One scan of the clauses a point. `test_level` hands on what it requires.
fn test_slots(
    clauses: Clauses<'_>,
    points: &[u64],
    found: &mut [u16],
    position: Position,
) -> Option<Point>
    requires { Testable (clauses_lent clauses) (points_of points.now) found.old position.at position.filled }
    ensures { Scans (clauses_lent clauses.entry)
        (points_of points.now) position.at position.filled result found.new }
{
    let mut best = None;
    for i in position.at..position.filled {
        let x = point_at(points, i);
        let number = clauses.first_falsified(x);
        put(found, i, number as u16);
        best = better(best, x, number);
    }
    best
}

// Q03.3: "on first taking a point of a new depth (0 included), tests all unprocessed points of that depth before it
// processes any": no slot up to `filled` is deeper then. The smallest that satisfies all clauses, where one does. Where
// the depth is not new its points were tested before, and nothing is done. `explore` sees to what it requires.
pub fn test_level(
    clauses: Clauses<'_>,
    points: &[u64],
    depths: &[Depth],
    found: &mut [u16],
    position: Position,
) -> Option<Point>
    requires { Testable (clauses_lent clauses) (points_of points.now) found.old
        position.at position.filled
        × Found (clauses_lent clauses) (points_of points.now) depths.now position.at
        position.filled found.old }
    ensures { Tests (clauses_lent clauses.entry)
        (points_of points.now) depths.now position.at position.filled result
        found.new }
{
    if opens(depths, position.at) {
        test_slots(clauses, points, found, position)
    } else {
        None
    }
}

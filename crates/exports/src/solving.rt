// The solver as an exported function.
ghost use Rattle.point_slices.specs.Slices.{slot_slices};
ghost use Rattle.exports.specs.Solving.{SolveReturns};

use export_words::{WORDS, put_settled};
use points::Depth;
use solver::solve;

// The solver: a text read, searched and, where it cannot be met, its certificate written to `out` and checked. Its
// answer is put into the first four words of `reply`. It returns 1; where `reply` has no room it returns 0 and changes
// nothing.
#[unsafe(no_mangle)]
pub extern "C" fn jugbowo_solve(
    text: &[u8],
    points: &mut [u64],
    falsified: &mut [u32],
    depths: &mut [Depth],
    out: &mut [u8],
    reply: &mut [u64],
) -> u32
    ensures { SolveReturns text.now
        (slot_slices points.old falsified.old depths.old) out.old
        reply.old result (slot_slices points.new falsified.new depths.new)
        out.new reply.new }
{
    if reply.len() < WORDS {
        return 0;
    }
    let r = solve(text, points, falsified, depths, out);
    put_settled(reply, r);
    1
}

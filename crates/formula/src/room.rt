// The slots that lent slices give, for the search and for the writer of certificates.
ghost use Rattle.std.specs.Prelude.{◌≡◌};
ghost use Rattle.point_slices.specs.Slices.{slot_slices};
ghost use Rattle.formula.specs.Limits.{capacity};

use crate::Formula;
use point_slices::point_count;
use points::Depth;

// The shortest length of the three, and at most `Formula::MAX_SLOTS`.
pub fn room(points: &[u64], falsified: &[u32], depths: &[Depth]) -> usize
    ensures { result ≡ capacity (slot_slices points.now falsified.now depths.now) }
{
    let beside = falsified.len().min(depths.len());
    let shortest = point_count(points).min(beside);
    shortest.min(Formula::MAX_SLOTS as usize)
}

// The slots as one slice of structs (01: 'Walk') and as three slices: a slot is read and stored, slots are copied
// from one form to the other.
#![tactic(auto)]

ghost use Rattle.std.specs.Prelude.{◌≡◌, ◌<◌, length, set};
ghost use Rattle.slot_columns.specs.Slots.{points_in, falsified_in, depths_in};
ghost use Rattle.slot_columns.specs.Laws.Copies.{slot_or, joined, Within, front};

use points::{Depth, Point};

// A visited point, the number of the clause that it falsifies (0 while unprocessed), and its depth.
#[repr(C)]
#[derive(Clone, Copy)]
pub struct Slot {
    pub point: Point,
    pub falsified: u32,
    pub depth: Depth,
}

// How many slots are lent. This and the next two are for callers in Rattle that keep slots as structs (F9); nothing
// here calls them.
pub fn slot_count(slots: &[Slot]) -> usize
    ensures { result ≡ length slots.now }
{
    slots.len()
}

// The slot at an index.
pub fn slot_at(slots: &[Slot], i: usize) -> Slot
    requires { i < length slots.now }
    ensures { result ≡ slot_or slots.now i }
{
    slots[i]
}

// Stores a slot at an index; all others are as before.
pub fn put_slot(slots: &mut [Slot], i: usize, s: Slot)
    requires { i < length slots.old }
    ensures { slots.new ≡ set slots.old i s }
{
    slots[i] = s;
}

// Copies the first k slots to the fronts of three slices.
pub fn copy_out(
    slots: &[Slot],
    k: usize,
    points: &mut [u64],
    falsified: &mut [u32],
    depths: &mut [Depth],
)
    requires { Within k (length slots.now) (length points.old) (length falsified.old) (length depths.old) }
    ensures { (points.new ≡ front k (points_in slots.now) points.old)
        × ((falsified.new ≡ front k (falsified_in slots.now) falsified.old)
        × (depths.new ≡ front k (depths_in slots.now) depths.old)) }
{
    for i in 0..k {
        let s = slots[i];
        points[i] = s.point;
        falsified[i] = s.falsified;
        depths[i] = s.depth;
    }
}

// Copies back: the first k places of three slices become the first k slots.
pub fn copy_back(slots: &mut [Slot], k: usize, points: &[u64], falsified: &[u32], depths: &[Depth])
    requires { Within k (length slots.old) (length points.now) (length falsified.now) (length depths.now) }
    ensures { slots.new ≡ front k (joined points.now falsified.now
        depths.now) slots.old }
{
    for j in 0..k {
        slots[j] = Slot {
            point: points[j],
            falsified: falsified[j],
            depth: depths[j],
        };
    }
}

// The writer with the slots in one lent slice of structs, where many are taken.
#![tactic(auto)]

ghost use Rattle.std.specs.Prelude.{◌≤◌, length};
ghost use Rattle.point_slices.specs.Slices.{slices_lent};
ghost use Rattle.formula.specs.Limits.{max_slots};
ghost use Rattle.slot_prefixes.specs.Laws.PrefixLaws.{taken};
ghost use Rattle.slot_writer_large.specs.Laws.Contracts.{WroteSlots};

use formula::Formula;
use formula::reasons::Refusal;
use point_slices::Clauses;
use points::Depth;
use slot_columns::{Slot, copy_out};
use slot_prefixes::{MOST_PLACES, slots_taken, write_prefix};

// For how many slots the arrays are where many are taken.
const MANY_PLACES: usize = 8192;

// The writer with arrays for so many slots: one step for each of their places, which is made 0, and one for each slot
// taken, which is copied. Its callers take no more slots than there are places for.
#[inline(never)]
pub fn write_on<const PLACES: usize>(
    f: Formula,
    clauses: Clauses<'_>,
    slots: &[Slot],
    filled: u32,
    out: &mut [u8],
) -> Result<usize, Refusal>
    requires { (taken filled (length slots.now) ≤ PLACES) × (PLACES ≤ max_slots) }
    ensures { WroteSlots f (slices_lent clauses.entry) slots.now
        filled out.old result out.new }
{
    let mut points = [0u64; PLACES];
    let mut falsified = [0u32; PLACES];
    let mut depths: [Depth; PLACES] = [0; PLACES];
    let k = slots_taken(filled, slots.len());
    copy_out(slots, k, &mut points, &mut falsified, &mut depths);
    write_prefix(f, clauses, &points, &falsified, &depths, k, filled, out)
}

// The same with arrays for up to 8,192 slots, 128 KiB of the stack; where more are taken, with arrays for as many slots
// as there can be, 1 MiB.
pub fn write_many(
    f: Formula,
    clauses: Clauses<'_>,
    slots: &[Slot],
    filled: u32,
    out: &mut [u8],
) -> Result<usize, Refusal>
    ensures { WroteSlots f (slices_lent clauses.entry) slots.now
        filled out.old result out.new }
{
    if slots_taken(filled, slots.len()) <= MANY_PLACES {
        write_on::<MANY_PLACES>(f, clauses, slots, filled, out)
    } else {
        write_on::<MOST_PLACES>(f, clauses, slots, filled, out)
    }
}

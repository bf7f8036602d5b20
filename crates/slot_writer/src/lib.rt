// The writer with the slots in one lent slice of structs (F9), a thin function over the writer on three slices.
#![tactic(auto)]

ghost use Rattle.point_slices.specs.Slices.{slices_lent};
ghost use Rattle.certificate_writer.specs.Contract.{Wrote};
ghost use Rattle.slot_columns.specs.Slots.{slots_in};

use formula::Formula;
use formula::reasons::Refusal;
use point_slices::Clauses;
use slot_columns::Slot;
use slot_prefixes::slots_taken;
use slot_writer_large::{write_many, write_on};

// For how many slots the arrays are where few are taken.
const FEW_PLACES: usize = 1024;

// D2.4: writes the certificate of the formula and of the first `filled` slots of one lent slice, by the definition of
// `certificate_writer::write`. It copies those slots, one step each, and looks at no other; where they are few the
// arrays for the copies have 16 KiB of the stack, and what is paid to make them 0 follows the slots taken.
pub fn write_slots(
    f: Formula,
    clauses: Clauses<'_>,
    slots: &[Slot],
    filled: u32,
    out: &mut [u8],
) -> Result<usize, Refusal>
    ensures { Wrote f (slices_lent clauses.entry)
        (slots_in slots.now) filled out.old result out.new }
{
    if slots_taken(filled, slots.len()) <= FEW_PLACES {
        write_on::<FEW_PLACES>(f, clauses, slots, filled, out)
    } else {
        write_many(f, clauses, slots, filled, out)
    }
}

// The search with the slots in one lent slice of structs (F9), a thin function over the search on three slices.
#![tactic(auto)]

ghost use Rattle.point_slices.specs.Slices.{slices_lent};
ghost use Rattle.slot_columns.specs.Slots.{slots_in};
ghost use Rattle.search.specs.Contract.{Searched};

use formula::Formula;
use point_slices::Clauses;
use points::Depth;
use search::Found;
use slot_columns::copy_back;
use slot_prefixes::{filled, outgrown, search_prefix};
use slot_search_again::search_many;

// A visited point, the number of the clause that it falsifies, and its depth.
pub type Slot = slot_columns::Slot;

// On how many places of its own a search is tried first.
const FEW_PLACES: usize = 256;

// D2.2: the search with the slots in one lent slice, by the definition of `search::search`; refusals 10 to 13 leave the
// slice as it was. It searches on 4 KiB of the stack, and only where that is too little again: on 64 KiB or, where more
// slots are lent than these have places for, on as many places as can be used. What the refusals test is tested once.
// The slots filled are copied back, one step each; no other slot is read or stored.
pub fn search_slots(f: Formula, clauses: Clauses<'_>, slots: &mut [Slot]) -> Found
    ensures { Searched f (slices_lent clauses.entry)
        (slots_in slots.old) result (slots_in slots.new) }
{
    let mut points = [0u64; FEW_PLACES];
    let mut falsified = [0u32; FEW_PLACES];
    let mut depths: [Depth; FEW_PLACES] = [0; FEW_PLACES];
    let lent = slots.len();
    let k = lent.min(FEW_PLACES);
    let r = search_prefix(f, clauses, &mut points, &mut falsified, &mut depths, k);
    if outgrown(r, k, lent) {
        return search_many(f, clauses, slots);
    }
    copy_back(slots, filled(r), &points, &falsified, &depths);
    r
}

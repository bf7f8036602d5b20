// The search with the slots in one lent slice of structs, begun again on more places than the first.
#![tactic(auto)]

ghost use Rattle.std.specs.Prelude.{◌≤◌, min, length};
ghost use Rattle.point_slices.specs.Slices.{slices_lent};
ghost use Rattle.formula.specs.Limits.{max_slots};
ghost use Rattle.slot_search_again.specs.Laws.Contracts.{Accepted, SearchedSlots};

use formula::Formula;
use point_slices::Clauses;
use points::Depth;
use search::Found;
use slot_columns::{Slot, copy_back};
use slot_prefixes::{MOST_PLACES, filled, search_accepted_prefix};

// On how many places a search is begun again where no more slots are lent.
const MANY_PLACES: usize = 4096;

// The search on so many places, which are local arrays: one step for each of them, which is made 0, and for each slot
// filled, which is copied back. `search_many` lends no more slots than there are places for.
#[inline(never)]
fn search_on<const PLACES: usize>(f: Formula, clauses: Clauses<'_>, slots: &mut [Slot]) -> Found
    requires accepted { Accepted f (slices_lent clauses) slots.old }
    requires places { (1 ≤ PLACES) × (PLACES ≤ max_slots) × (min max_slots (length slots.old) ≤ PLACES) }
    ensures { SearchedSlots f (slices_lent clauses.entry)
        slots.old result slots.new }
{
    let mut points = [0u64; PLACES];
    let mut falsified = [0u32; PLACES];
    let mut depths: [Depth; PLACES] = [0; PLACES];
    let k = slots.len().min(PLACES);
    let r = search_accepted_prefix(f, clauses, &mut points, &mut falsified, &mut depths, k);
    copy_back(slots, filled(r), &points, &falsified, &depths);
    r
}

// The search on 64 KiB of the stack where these have places for all the slots lent, else on as many places as can be
// used, 1 MiB: so a search begins again only once. `slot_search::search_slots`, whose first places were too few, sees to
// what it requires.
pub fn search_many(f: Formula, clauses: Clauses<'_>, slots: &mut [Slot]) -> Found
    requires { Accepted f (slices_lent clauses) slots.old }
    ensures { SearchedSlots f (slices_lent clauses.entry)
        slots.old result slots.new }
{
    if slots.len() <= MANY_PLACES {
        search_on::<MANY_PLACES>(f, clauses, slots)
    } else {
        search_on::<MOST_PLACES>(f, clauses, slots)
    }
}

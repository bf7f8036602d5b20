// The search and the writer over a slice of slots for programs in other languages.
#![tactic(auto)]

ghost use Rattle.point_slices.specs.Slices.{clause_slices};
ghost use Rattle.slot_columns.specs.Slots.{slots_in};
ghost use Rattle.export_words.specs.Searching.{SearchReturns};
ghost use Rattle.export_words.specs.Writing.{WriteReturns};
ghost use Rattle.export_formulas.specs.Formulas.{formula_from};

use export_formulas::formula_from;
use export_words::{WORDS, put_found, put_written};
use formula::Numbers;
use point_slices::Clauses;
use slot_columns::Slot;
use slot_search::search_slots;
use slot_writer::write_slots;

// The search over a slice of slots, its answer put into the first four words of `reply`. It returns 1; where `reply`
// has no room it returns 0 and changes nothing.
#[unsafe(no_mangle)]
pub extern "C" fn jugbowo_search_slots(
    variables: u32,
    clauses: u32,
    target: u64,
    permutations: u32,
    images: &[u8],
    positive: &[u64],
    negative: &[u64],
    slots: &mut [Slot],
    reply: &mut [u64],
) -> u32
    ensures { SearchReturns (formula_from variables clauses target permutations images.now)
        (clause_slices positive.now negative.now) (slots_in slots.old)
        reply.old result (slots_in slots.new) reply.new }
{
    if reply.len() < WORDS {
        return 0;
    }
    let numbers = Numbers {
        variables,
        clauses,
        target,
        permutations,
    };
    let f = formula_from(numbers, images);
    let lent = Clauses { positive, negative };
    put_found(reply, search_slots(f, lent, slots));
    1
}

// The writer from a slice of slots, its answer put into the first four words of `reply`. It returns 1; where `reply`
// has no room it returns 0 and changes nothing.
#[unsafe(no_mangle)]
pub extern "C" fn jugbowo_write_slots(
    variables: u32,
    clauses: u32,
    target: u64,
    permutations: u32,
    images: &[u8],
    positive: &[u64],
    negative: &[u64],
    slots: &[Slot],
    filled: u32,
    out: &mut [u8],
    reply: &mut [u64],
) -> u32
    ensures { WriteReturns (formula_from variables clauses target permutations images.now)
        (clause_slices positive.now negative.now) (slots_in slots.now) filled
        out.old reply.old result out.new reply.new }
{
    if reply.len() < WORDS {
        return 0;
    }
    let numbers = Numbers {
        variables,
        clauses,
        target,
        permutations,
    };
    let f = formula_from(numbers, images);
    let lent = Clauses { positive, negative };
    put_written(reply, write_slots(f, lent, slots, filled, out));
    1
}

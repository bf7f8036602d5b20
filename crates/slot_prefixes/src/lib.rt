// The search and the writer on the first places of three slices, which functions over a slice of slots call on arrays
// of their own, and what those read of the answers.
#![tactic(auto)]

ghost use Rattle.std.specs.Prelude.{◌≡◌, ◌&&◌, ltb, length, take};
ghost use Rattle.point_slices.specs.Slices.{slices_lent, slot_slices};
ghost use Rattle.certificate_writer.specs.Contract.{Wrote};
ghost use Rattle.slot_columns.specs.Laws.Copies.{Within};
ghost use Rattle.formula.specs.Reply.{no_fault};
ghost use Rattle.search.specs.Search.{search_fault};
ghost use Rattle.search.specs.Contract.{reply_of_found, Searched};
ghost use Rattle.search_theory.specs.Laws.Promised.{reported};
ghost use Rattle.slot_prefixes.specs.Laws.PrefixLaws.{no_room, taken, bytes_in};

use certificate_writer::write;
use formula::Formula;
use formula::reasons::Refusal;
use point_slices::Clauses;
use points::Depth;
use search::{Found, search, search_accepted};
use search_step::Conclusion;

// How many places such arrays have at most: one for each slot that a search or a certificate can use.
pub const MOST_PLACES: usize = Formula::MAX_SLOTS as usize;

// The search on the first k places of three slices.
pub fn search_prefix(
    f: Formula,
    clauses: Clauses<'_>,
    points: &mut [u64],
    falsified: &mut [u32],
    depths: &mut [Depth],
    k: usize,
) -> Found
    requires { Within k k (length points.old) (length falsified.old) (length depths.old) }
    ensures { Searched f (slices_lent clauses.entry)
        (slot_slices (take k points.old) (take k falsified.old) (take k depths.old)) result
        (slot_slices (take k points.new) (take k falsified.new) (take k depths.new)) }
{
    search(
        f,
        clauses,
        &mut points[..k],
        &mut falsified[..k],
        &mut depths[..k],
    )
}

// The same of a formula that refusals 10 to 12 let pass, on at least one place.
pub fn search_accepted_prefix(
    f: Formula,
    clauses: Clauses<'_>,
    points: &mut [u64],
    falsified: &mut [u32],
    depths: &mut [Depth],
    k: usize,
) -> Found
    requires { Within k k (length points.old) (length falsified.old) (length depths.old)
        × (search_fault f (slices_lent clauses) k ≡ no_fault) }
    ensures { Searched f (slices_lent clauses.entry)
        (slot_slices (take k points.old) (take k falsified.old) (take k depths.old)) result
        (slot_slices (take k points.new) (take k falsified.new) (take k depths.new)) }
{
    search_accepted(
        f.view(),
        clauses,
        &mut points[..k],
        &mut falsified[..k],
        &mut depths[..k],
    )
}

// The writer on the first k places of three slices.
pub fn write_prefix(
    f: Formula,
    clauses: Clauses<'_>,
    points: &[u64],
    falsified: &[u32],
    depths: &[Depth],
    k: usize,
    filled: u32,
    out: &mut [u8],
) -> Result<usize, Refusal>
    requires { Within k k (length points.now) (length falsified.now) (length depths.now) }
    ensures { Wrote f (slices_lent clauses.entry)
        (slot_slices (take k points.now) (take k falsified.now) (take k depths.now))
        filled out.old result out.new }
{
    write(
        f,
        clauses,
        &points[..k],
        &falsified[..k],
        &depths[..k],
        filled,
        out,
    )
}

// How many slots a search says that it filled; none where it refused.
pub fn filled(r: Found) -> usize
    ensures { result ≡ reported (reply_of_found r) }
{
    match r.answer {
        Ok(Conclusion::Satisfiable { filled, .. }) => filled as usize,
        Ok(Conclusion::Unsatisfiable { filled }) => filled as usize,
        Ok(Conclusion::Unknown { filled, .. }) => filled as usize,
        Err(_) => 0,
    }
}

// Whether a search on k places found no room where more slots than those are lent.
pub fn outgrown(r: Found, k: usize, lent: usize) -> bool
    ensures { result ≡ (no_room (reply_of_found r) && ltb k lent) }
{
    match r.answer {
        Ok(Conclusion::Unknown { .. }) => k < lent,
        Ok(Conclusion::Satisfiable { .. }) | Ok(Conclusion::Unsatisfiable { .. }) => false,
        Err(_) => false,
    }
}

// How many slots a certificate is made of: those filled. Where fewer are lent it is none, since refusal 16 then looks at
// no slot.
pub fn slots_taken(filled: u32, lent: usize) -> usize
    ensures { result ≡ taken filled lent }
{
    let many = filled as usize;
    if many <= MOST_PLACES.min(lent) {
        many
    } else {
        0
    }
}

// How many bytes a writer says that it put out; none where it refused.
pub fn bytes(r: Result<usize, Refusal>) -> usize
    ensures { result ≡ bytes_in r }
{
    r.unwrap_or(0)
}

// Refusals 16, 17 and 18 of a certificate's points and clause numbers, which are copied out of their bodies first.
#![tactic(auto)]

ghost use Rattle.std.specs.Prelude.{true, ◌≡◌, ◌-◌, ◌*◌, take};
ghost use Rattle.point_slices.specs.Laws.Contracts.{clauses_lent};
ghost use Rattle.points.specs.Points.{numbered};
ghost use Rattle.point_slices.specs.Slices.{points_of};
ghost use Rattle.permutation_images.specs.Laws.Contracts.{permutations_of};
ghost use Rattle.formula.specs.Limits.{max_slots};
ghost use Rattle.formula.specs.Refusals.{fault_of};
ghost use Rattle.check_distinct.specs.Laws.Indexing.{suits};
ghost use Rattle.check_entries.specs.Laws.Entries.{lists_fault, decoded_fault, Ready, Decodable, Lent};

use certificate::bodies::{numbers_into, points_into};
use check_distinct::{
    FEW_LINKS, FEW_POINTS, MANY_LINKS, MANY_POINTS, MOST_POINTS, TINY_LINKS, TINY_POINTS,
    points_refusal,
};
use check_falsified::numbers_refusal;
use check_flips::flips_refusal;
use formula::reasons::Refusal;
use permutation_images::Permutations;
use point_index::Index;
use point_slices::Clauses;

// The entries of a certificate: the bodies of its points and of its clause numbers, and how many each holds.
#[derive(Clone, Copy)]
pub struct Bodies<'a> {
    pub points: &'a [u8],
    pub falsified: &'a [u8],
    pub count: usize,
}

// N8: the tests of the first `count` points and numbers of two slices, in their order. The first leaves an index of the
// points in the links, which are all 0 before. `copied_refusal` hands on what it requires.
fn lists_refusal(
    permutations: Permutations<'_>,
    clauses: Clauses<'_>,
    points: &[u64],
    falsified: &[u32],
    links: &mut [u32],
    heads: usize,
    count: usize,
) -> Result<(), Refusal>
    requires { Ready permutations (clauses_lent clauses) heads (points_of points.now) links.old count }
    ensures { fault_of result ≡ lists_fault permutations.entry.variables (numbered (clauses_lent clauses.entry))
        (permutations_of permutations.entry) (take count (points_of points.now)) (take count falsified.now) }
{
    let n = permutations.variables;
    points_refusal(n, points, links, heads, count, MOST_POINTS)?;
    numbers_refusal(clauses, points, falsified, count)?;
    let index = Index {
        heads,
        points,
        links,
        count,
    };
    flips_refusal(permutations, clauses, index, falsified)
}

// The same of the entries in two bodies, which are copied to the slices lent first: 12 steps a point.
fn copied_refusal(
    permutations: Permutations<'_>,
    clauses: Clauses<'_>,
    bodies: Bodies<'_>,
    held: &mut [u64],
    named: &mut [u32],
    links: &mut [u32],
    heads: usize,
) -> Result<(), Refusal>
    requires { Decodable permutations (clauses_lent clauses) bodies max_slots
        × Lent heads bodies.count (points_of held.old) named.old links.old }
    ensures { fault_of result ≡ decoded_fault permutations.entry (clauses_lent clauses.entry) bodies.entry }
{
    points_into(held, bodies.points, bodies.count);
    numbers_into(named, bodies.falsified, bodies.count);
    lists_refusal(
        permutations,
        clauses,
        held,
        named,
        links,
        heads,
        bodies.count,
    )
}

// The same of at most so many entries, copied to arrays of its own. The links beside two for each point are heads. The
// stack holds the arrays while it runs, and no longer.
#[inline(never)]
fn sized_refusal<const POINTS: usize, const LINKS: usize>(
    permutations: Permutations<'_>,
    clauses: Clauses<'_>,
    bodies: Bodies<'_>,
) -> Result<(), Refusal>
    requires { Decodable permutations (clauses_lent clauses) bodies POINTS
        × (suits (LINKS - 2 * POINTS) POINTS LINKS ≡ true) }
    ensures { fault_of result ≡ decoded_fault permutations.entry (clauses_lent clauses.entry) bodies.entry }
{
    let mut held = [0u64; POINTS];
    let mut named = [0u32; POINTS];
    let mut links = [0u32; LINKS];
    let heads = LINKS - 2 * POINTS;
    copied_refusal(
        permutations,
        clauses,
        bodies,
        &mut held,
        &mut named,
        &mut links,
        heads,
    )
}

// The links for as many entries as there can be: with twice as many heads as points, most look-ups that find nothing
// end at once.
const MOST_LINKS: usize = 4 * MOST_POINTS;

// The same of any number of entries. Refusals 10, 11 and 14 see to what it requires. The arrays suit the count, since
// each is made 0 first: they take from 1.5 KiB to 1.75 MiB of the stack.
pub fn decoded_refusal(
    permutations: Permutations<'_>,
    clauses: Clauses<'_>,
    bodies: Bodies<'_>,
) -> Result<(), Refusal>
    requires { Decodable permutations (clauses_lent clauses) bodies max_slots }
    ensures { fault_of result ≡ decoded_fault permutations.entry (clauses_lent clauses.entry) bodies.entry }
{
    if bodies.count <= TINY_POINTS {
        sized_refusal::<{ TINY_POINTS }, { TINY_LINKS }>(permutations, clauses, bodies)
    } else if bodies.count <= FEW_POINTS {
        sized_refusal::<{ FEW_POINTS }, { FEW_LINKS }>(permutations, clauses, bodies)
    } else if bodies.count <= MANY_POINTS {
        sized_refusal::<{ MANY_POINTS }, { MANY_LINKS }>(permutations, clauses, bodies)
    } else {
        sized_refusal::<{ MOST_POINTS }, { MOST_LINKS }>(permutations, clauses, bodies)
    }
}

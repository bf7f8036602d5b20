// Answers as words in lent slices, for programs in other languages.
#![tactic(auto)]

ghost use Rattle.std.specs.Prelude.{[], ◌∷◌, ◌≡◌, ◌≤◌, length, take};
ghost use Rattle.math.specs.Lists.{over};
ghost use Rattle.formula.specs.Reasons.{code_of};
ghost use Rattle.formula.specs.Reply.{refused};
ghost use Rattle.export_words.specs.Words.{words_of};
ghost use Rattle.std.proofs.Math.Option.{some};
ghost use Rattle.search.specs.Contract.{reply_of_found};
ghost use Rattle.certificate_writer.specs.Contract.{reply_of_written};
ghost use Rattle.certificate.specs.Contract.{handed_out, entry_of, contents_in, reply_of_opened};
ghost use Rattle.checker.specs.Contract.{reply_of_verdict};
ghost use Rattle.export_words.specs.Replies.{entry_words, contents_words, settled_words};

use certificate::Contents;
use formula::reasons::Refusal;
use search::Found;
use search_step::Conclusion;
use solver::{Settled, Solution};

// How many words an answer takes.
pub const WORDS: usize = 4;

// How many words an entry of a body takes, and how many a file's contents.
pub const ENTRY: usize = 2;

pub const CONTENTS: usize = 8;

// Copies the first `count` bytes of one slice to the front of another. One step a byte.
pub fn copy_bytes(to: &mut [u8], from: &[u8], count: usize)
    requires { (count ≤ length to.old) × (count ≤ length from.now) }
    ensures { to.new ≡ over (take count from.now) to.old }
{
    to[..count].copy_from_slice(&from[..count]);
}

// Writes four words to the front of a slice; the callers see to its length.
pub fn put_words(to: &mut [u64], a: u64, b: u64, c: u64, d: u64)
    requires { 4 ≤ length to.old }
    ensures { to.new ≡ over (a ∷ b ∷ c ∷ d ∷ []) to.old }
{
    to[..WORDS].copy_from_slice(&[a, b, c, d]);
}

// Writes the words of a refusal; the callers see to the room for them.
pub fn put_refusal(reply: &mut [u64], r: Refusal)
    requires { 4 ≤ length reply.old }
    ensures { reply.new ≡ over (words_of (refused (code_of r.reason) r.place)) reply.old }
{
    put_words(reply, 0, r.reason.code() as u64, r.place as u64, 0);
}

// Writes the words of the search's answer; the callers see to the room for them.
pub fn put_found(reply: &mut [u64], r: Found)
    requires { 4 ≤ length reply.old }
    ensures { reply.new ≡ over (words_of (reply_of_found r)) reply.old }
{
    match r.answer {
        Ok(Conclusion::Satisfiable { distance, filled }) => {
            put_words(reply, 1, r.point, distance as u64, filled as u64)
        }
        Ok(Conclusion::Unsatisfiable { filled }) => put_words(reply, 2, filled as u64, 0, 0),
        Ok(Conclusion::Unknown { bound, filled }) => {
            put_words(reply, 3, bound as u64, filled as u64, 0)
        }
        Err(refusal) => put_refusal(reply, refusal),
    }
}

// Writes the words of the writer's answer; the callers see to the room for them.
pub fn put_written(reply: &mut [u64], r: Result<usize, Refusal>)
    requires { 4 ≤ length reply.old }
    ensures { reply.new ≡ over (words_of (reply_of_written r)) reply.old }
{
    match r {
        Ok(size) => put_words(reply, 5, size as u64, 0, 0),
        Err(refusal) => put_refusal(reply, refusal),
    }
}

// Writes the words of the checker's answer; the callers see to the room for them.
pub fn put_verdict(reply: &mut [u64], r: Result<(), Refusal>)
    requires { 4 ≤ length reply.old }
    ensures { reply.new ≡ over (words_of (reply_of_verdict r)) reply.old }
{
    match r {
        Ok(()) => put_words(reply, 7, 0, 0, 0),
        Err(refusal) => put_refusal(reply, refusal),
    }
}

// Writes the two words of an entry of a body; the callers see to the room for them.
pub fn put_entry(reply: &mut [u64], r: Option<u64>)
    requires { 2 ≤ length reply.old }
    ensures { reply.new ≡ over (entry_words (entry_of r)) reply.old }
{
    let words = match r {
        Some(value) => [1, value],
        None => [0, 0],
    };
    reply[..ENTRY].copy_from_slice(&words);
}

// Writes the eight numbers of a file's contents; `put_opened` sees to the room for them.
fn put_contents(to: &mut [u64], c: Contents)
    requires { 8 ≤ length to.old }
    ensures { to.new ≡ over (contents_words (some (contents_in c))) to.old }
{
    to[..CONTENTS].copy_from_slice(&[
        c.variables as u64,
        c.clauses as u64,
        c.permutations as u64,
        c.permutations_at as u64,
        c.points as u64,
        c.points_at as u64,
        c.numbers as u64,
        c.numbers_at as u64,
    ]);
}

// Writes the words of the file reader's answer, and the contents where there are some; the callers see to the room for
// both.
pub fn put_opened(contents: &mut [u64], reply: &mut [u64], r: Result<Contents, Refusal>)
    requires { (8 ≤ length contents.old) × (4 ≤ length reply.old) }
    ensures { (contents.new ≡ over (contents_words (handed_out r)) contents.old)
        × (reply.new ≡ over (words_of (reply_of_opened r)) reply.old) }
{
    match r {
        Ok(c) => {
            put_contents(contents, c);
            put_words(reply, 6, 0, 0, 0);
        }
        Err(refusal) => put_refusal(reply, refusal),
    }
}

// Writes the words of the solver's answer; the callers see to the room for them.
pub fn put_settled(reply: &mut [u64], r: Settled)
    requires { 4 ≤ length reply.old }
    ensures { reply.new ≡ over (settled_words r) reply.old }
{
    match r.answer {
        Ok(Solution::Satisfiable { distance, filled }) => {
            put_words(reply, 1, r.point, distance as u64, filled as u64)
        }
        Ok(Solution::Unsatisfiable { filled, size }) => {
            put_words(reply, 8, filled as u64, size as u64, 0)
        }
        Ok(Solution::Uncertified { filled, needed }) => {
            put_words(reply, 9, filled as u64, needed as u64, 0)
        }
        Ok(Solution::Unknown { bound, filled }) => {
            put_words(reply, 3, bound as u64, filled as u64, 0)
        }
        Err(refusal) => put_refusal(reply, refusal),
    }
}

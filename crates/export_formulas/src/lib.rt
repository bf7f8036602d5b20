// Formulas as numbers and bytes in lent slices, and the reader's answer beside them, for programs in other languages.
#![tactic(auto)]

ghost use Rattle.std.specs.Prelude.{◌≡◌, ◌≤◌, length, take, replicate, IfOk};
ghost use Rattle.math.specs.Lists.{over};
ghost use Rattle.formula.specs.Limits.{max_images};
ghost use Rattle.formula.specs.Laws.Contracts.{formula_lent, formula_with};
ghost use Rattle.export_words.specs.Words.{words_of};
ghost use Rattle.export_formulas.specs.Formulas.{formula_from, numbers_of, put_if_parsed};
ghost use Rattle.dimacs_lines.specs.Laws.ParsedAs.{parsed_in};
ghost use Rattle.dimacs_lines.specs.Reply.{reply_of_parse};
ghost use Rattle.export_formulas.specs.Laws.FormulaLaws.{Unused};

use export_words::{copy_bytes, put_refusal, put_words};
use formula::reasons::Refusal;
use formula::view::FormulaView;
use formula::{Formula, Numbers};

// Puts lent bytes over the images of a formula, as many as there can be. One step a byte.
fn put_images(to: &mut [u8; Formula::MAX_IMAGES], bytes: &[u8])
    ensures { to.new ≡ over (take max_images bytes.now) to.old }
{
    let count = bytes.len().min(Formula::MAX_IMAGES);
    copy_bytes(to, bytes, count);
}

// The formula by value that numbers and bytes make: 0 for the images that are not lent. They are copied to where they
// stay.
pub fn formula_from(f: Numbers, images: &[u8]) -> Formula
    ensures { result ≡ formula_from f.variables f.clauses f.target f.permutations images.now }
{
    let mut made = Formula {
        variables: f.variables,
        clauses: f.clauses,
        target: f.target,
        permutations: f.permutations,
        images: [0u8; Formula::MAX_IMAGES],
    };
    put_images(&mut made.images, images);
    made
}

// The formula that numbers and images make where as many are lent as a formula has: they stay where they lie. The callers
// see to that.
pub fn whole_view(f: Numbers, images: &[u8]) -> FormulaView<'_>
    requires { max_images ≤ length images.now }
    ensures { formula_lent result ≡ formula_from f.variables f.clauses f.target f.permutations images.now }
{
    FormulaView {
        numbers: f,
        images: &images[..Formula::MAX_IMAGES],
    }
}

// The formula that numbers and lent images make, where it lies: where as many images are lent as a formula has they stay,
// else they are copied to `room`, which has 0 behind them. A caller that knows of as many makes no room (`whole_view`).
pub fn formula_view<'a>(
    f: Numbers,
    images: &'a [u8],
    room: &'a mut [u8; Formula::MAX_IMAGES],
) -> FormulaView<'a>
    requires { room.old ≡ replicate max_images 0 }
    ensures { formula_lent result ≡ formula_from f.variables f.clauses f.target f.permutations images.now }
{
    if images.len() < Formula::MAX_IMAGES {
        put_images(room, images);
        return FormulaView {
            numbers: f,
            images: room,
        };
    }
    whole_view(f, images)
}

// Writes a formula's images. Where there are no permutations they are zeros, which need not be read. One step a byte.
// `put_formula` sees to what it requires.
fn put_held(images: &mut [u8], permutations: u32, held: &[u8; Formula::MAX_IMAGES])
    requires { (max_images ≤ length images.old) × Unused permutations held.now }
    ensures { images.new ≡ over held.now images.old }
{
    if permutations == 0 {
        images[..Formula::MAX_IMAGES].fill(0);
    } else {
        images[..Formula::MAX_IMAGES].copy_from_slice(held);
    }
}

// Writes a formula's four numbers and its images; `put_parsed` sees to what it requires.
fn put_formula(numbers: &mut [u64], images: &mut [u8], f: Numbers, held: &[u8; Formula::MAX_IMAGES])
    requires { (4 ≤ length numbers.old) × (max_images ≤ length images.old)
        × Unused f.permutations held.now }
    ensures { (numbers.new ≡ over (numbers_of (formula_with f held.now)) numbers.old)
        × (images.new ≡ over held.now images.old) }
{
    put_words(
        numbers,
        f.variables as u64,
        f.clauses as u64,
        f.target,
        f.permutations as u64,
    );
    put_held(images, f.permutations, held);
}

// Writes the words of the reader's answer and, where the text is read, the formula of the numbers and of the images
// that are held. D1.2: "after a refusal each lent slice holds what it held before". The callers see to the room for all
// of it, and have the images from the reader.
pub fn put_parsed(
    numbers: &mut [u64],
    images: &mut [u8],
    reply: &mut [u64],
    r: Result<Numbers, Refusal>,
    held: &[u8; Formula::MAX_IMAGES],
)
    requires { (4 ≤ length numbers.old) × (max_images ≤ length images.old) × (4 ≤ length reply.old)
        × IfOk r (λ f. Unused f.permutations held.now) }
    ensures { (numbers.new ≡ put_if_parsed (reply_of_parse (parsed_in r held.now).answer)
        (numbers_of (parsed_in r held.now).formula) numbers.old)
        × (images.new ≡ put_if_parsed (reply_of_parse (parsed_in r held.now).answer)
        (parsed_in r held.now).formula.images images.old)
        × (reply.new ≡ over (words_of (reply_of_parse (parsed_in r held.now).answer)) reply.old) }
{
    match r {
        Ok(f) => {
            put_words(reply, 4, 0, 0, 0);
            put_formula(numbers, images, f, held);
        }
        Err(refusal) => put_refusal(reply, refusal),
    }
}

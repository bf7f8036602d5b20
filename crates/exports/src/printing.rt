// What the program `nearest` prints, as an exported function.
ghost use Rattle.exports.specs.Printing.{NearestReturns};

use export_words::copy_bytes;
use program::answer;
use program_text::LONGEST;

// Puts what the program `nearest` prints for a text to the front of `out`, and returns how many bytes that is; where
// `out` has fewer it returns the same number and changes nothing.
#[unsafe(no_mangle)]
pub extern "C" fn jugbowo_nearest(text: &[u8], out: &mut [u8]) -> usize
    ensures { NearestReturns text.now out.old result out.new }
{
    let mut printed = [0u8; LONGEST];
    let count = answer(text, &mut printed);
    if out.len() < count {
        return count;
    }
    copy_bytes(out, &printed, count);
    count
}

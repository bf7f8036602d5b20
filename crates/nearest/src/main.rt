// The program `nearest` (P1): reads a sheet from standard input and writes to standard output what document 01 fixes,
// and nothing else. Where standard input cannot be read it prints nothing there and says so on standard error: a failed
// read is not the end of a sheet, and no number of 01 means it. Where standard output cannot be written, a pipe that
// nobody reads any more among such, it says that there too. The exit status is 0 wherever the program ends by itself.
#![tactic(auto)]

ghost use Rattle.std.specs.Prelude.{◌≤◌, length, IfOk};
ghost use Rattle.program_text.specs.Report.{longest_text};

use program::{MAX_INPUT, printed_for};
use program_text::LONGEST;
use std::io::{self, Read, Stdin};

// Reads standard input to the front of the buffer, until that is full, the input ends or a read fails, and answers how
// many bytes there are. One step a read: it may bring fewer bytes than there is room for, and none at the end of the
// input.
fn read_input(mut stdin: Stdin, buffer: &mut [u8]) -> io::Result<usize>
    ensures { IfOk result (λ count. count ≤ length buffer.new) }
{
    let mut count = 0;
    while count < buffer.len() {
        let more = stdin.read(&mut buffer[count..])?;
        if more == 0 {
            break;
        }
        count += more;
    }
    Ok(count)
}

// Answers the input, with the two arrays of `main` lent. A write that fails is told on standard error.
fn respond(rt: HostRuntime, input: &mut [u8], out: &mut [u8])
    requires { longest_text ≤ length out.old }
{
    let Ok(count) = read_input(rt.stdin(), input) else {
        let _ = rt.eprintln("nearest: cannot read standard input");
        return;
    };
    let text = printed_for(input, count, out);
    if rt.write_all(text).is_err() {
        let _ = rt.eprintln("nearest: cannot write standard output");
    }
}

// One byte more than a sheet may have, so that a longer one is seen, and as many bytes as bound every text.
fn main(rt: HostRuntime) {
    let mut input = [0u8; MAX_INPUT + 1];
    let mut out = [0u8; LONGEST];
    respond(rt, &mut input, &mut out);
}

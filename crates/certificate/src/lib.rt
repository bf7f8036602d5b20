// The certificate (01: 'Certificate'): its bytes, the reader of files and of their three bodies, and what the writer
// answers.
#![tactic(auto)]

ghost use Rattle.std.specs.Prelude.{◌≡◌, ◌≤◌, length};
ghost use Rattle.certificate.specs.Certificate.{contents_length, contents_of, fitting};
ghost use Rattle.certificate.specs.Contract.{contents_in, OpenedAs};

use crate::bodies::field;
use formula::reasons::{Reason, Refusal};

pub mod bodies;

// The contents of a file: n, m, then count and offset of each body.
#[derive(Clone, Copy)]
pub struct Contents {
    pub variables: u32,
    pub clauses: u32,
    pub permutations: u32,
    pub permutations_at: u32,
    pub points: u32,
    pub points_at: u32,
    pub numbers: u32,
    pub numbers_at: u32,
}

// How many bytes the contents take, a number in them, a point and a clause number.
pub const CONTENTS: usize = 32;

pub const FIELD: usize = 4;

pub const POINT: usize = 8;

pub const NUMBER: usize = 4;

// C2: the contents that stand in a file's first 32 bytes; `read` sees to it that there are so many.
fn contents_from(file: &[u8]) -> Contents
    requires { contents_length ≤ length file.now }
    ensures { contents_in result ≡ contents_of file.now }
{
    Contents {
        variables: field(file, 0),
        clauses: field(file, 1),
        permutations: field(file, 2),
        permutations_at: field(file, 3),
        points: field(file, 4),
        points_at: field(file, 5),
        numbers: field(file, 6),
        numbers_at: field(file, 7),
    }
}

// C4: whether the contents fit a file of `size` bytes, which `read` found to be 32 at least. Each body is compared with
// what is left of the file behind the one before it, so that no sum leaves the file and none wraps.
fn in_order(c: Contents, size: usize) -> bool
    requires { contents_length ≤ size }
    ensures { result ≡ fitting (contents_in c) size }
{
    let images = c.permutations as usize * c.variables as usize;
    let points = c.points as usize * POINT;
    let second = c.points_at as usize;
    let third = c.numbers_at as usize;
    if c.permutations_at as usize != CONTENTS
        || c.points != c.numbers
        || size - CONTENTS < images
        || second != CONTENTS + images
        || size - second < points
        || third != second + points
    {
        return false;
    }
    size - third == c.numbers as usize * NUMBER
}

// N7, R14: reads a file's contents without checking what its bodies hold; refusal 14 has the file's length as its
// place.
pub fn read(file: &[u8]) -> Result<Contents, Refusal>
    ensures { OpenedAs file.now result }
{
    let size = file.len();
    let refusal = Refusal {
        reason: Reason::CertificateFile,
        place: size,
    };
    if size < CONTENTS {
        return Err(refusal);
    }
    let c = contents_from(file);
    if in_order(c, size) {
        Ok(c)
    } else {
        Err(refusal)
    }
}

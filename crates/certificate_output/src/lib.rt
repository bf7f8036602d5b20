// Numbers, contents and bodies of a certificate stored into lent bytes, each at its place.
#![tactic(auto)]

ghost use mathlib.Core.List.{flat_map};
ghost use Rattle.std.specs.Prelude.{◌≡◌, ◌+◌, ◌*◌, ◌/◌, ◌%◌, ◌^◌, ◌≤◌, length, take};
ghost use Rattle.math.specs.Lists.{spliced};
ghost use Rattle.point_slices.specs.Slices.{points_of};
ghost use Rattle.certificate.specs.Bytes.{bytes_of, field_width, point_width, number_width};
ghost use Rattle.certificate.specs.Certificate.{fields_of, layout, contents_length};

use certificate::{CONTENTS, FIELD, NUMBER, POINT};
use point_slices::{number_at, point_at};

// C1: stores the lowest `width` bytes of a number from place `at` on, low byte first. One step a byte.
pub fn put_number(out: &mut [u8], at: usize, width: usize, x: u64)
    requires { at + width ≤ length out.old }
    ensures { out.new ≡ spliced at (bytes_of width x) out.old }
{
    let bytes = x.to_le_bytes();
    for i in 0..width {
        out[at + i] = bytes.get(i).copied().unwrap_or(0);
    }
}

// C2: stores the contents of a certificate: n, m, then count and offset of each body. The caller says where the points
// and the numbers begin.
pub fn put_contents(
    out: &mut [u8],
    n: u32,
    m: u32,
    permutations: u32,
    count: u32,
    points_at: usize,
    numbers_at: usize,
)
    requires { (contents_length ≤ length out.old) × (points_at ≡ contents_length + permutations * n)
        × (numbers_at ≡ contents_length + permutations * n + count * point_width) }
    ensures { out.new ≡ spliced 0 (flat_map (bytes_of field_width)
        (fields_of (layout n m permutations count count))) out.old }
{
    let fields = [
        n as u64,
        m as u64,
        permutations as u64,
        CONTENTS as u64,
        count as u64,
        points_at as u64,
        count as u64,
        numbers_at as u64,
    ];
    for (i, x) in fields.iter().enumerate() {
        put_number(out, i * FIELD, FIELD, *x);
    }
}

// Stores the first `count` bytes of a slice from place `at` on. One step a byte: with the library's copy the archives for
// C would need `memmove`.
pub fn put_bytes(out: &mut [u8], at: usize, bytes: &[u8], count: usize)
    requires { (at + count ≤ length out.old) × (count ≤ length bytes.now) }
    ensures { out.new ≡ spliced at (take count bytes.now) out.old }
{
    for i in 0..count {
        out[at + i] = bytes[i];
    }
}

// C3: stores the first `count` points from place `at` on, eight bytes each. One step a point.
pub fn put_points(out: &mut [u8], at: usize, points: &[u64], count: usize)
    requires { (at + count * point_width ≤ length out.old) × (count ≤ length (points_of points.now)) }
    ensures { out.new ≡ spliced at (flat_map (bytes_of point_width)
        (take count (points_of points.now))) out.old }
{
    for i in 0..count {
        put_number(out, at + i * POINT, POINT, point_at(points, i));
    }
}

// C3: stores the first `count` clause numbers from place `at` on, four bytes each. One step a number.
pub fn put_numbers(out: &mut [u8], at: usize, numbers: &[u32], count: usize)
    requires { (at + count * number_width ≤ length out.old) × (count ≤ length numbers.now) }
    ensures { out.new ≡ spliced at (flat_map (bytes_of number_width) (take count numbers.now))
        out.old }
{
    for next in 0..count {
        put_number(
            out,
            at + next * NUMBER,
            NUMBER,
            number_at(numbers, next) as u64,
        );
    }
}

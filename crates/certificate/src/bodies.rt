// Numbers in bytes: the fields of the contents and, F4, one function for each body, which takes that part of the file.
ghost use Rattle.std.specs.Prelude.{◌≡◌, ◌+◌, ◌*◌, ◌^◌, ◌≤◌, ◌<◌, length, get_or, take, drop};
ghost use Rattle.math.specs.Lists.{over};
ghost use Rattle.point_slices.specs.Slices.{points_of, rest_of};
ghost use Rattle.certificate.specs.Bytes.{number_from, numbers_in, point_width, number_width, field_width};
ghost use Rattle.certificate.specs.Certificate.{contents_length, number_at};
ghost use Rattle.certificate.specs.Contract.{EntryIs, ImageRead, PointRead, NumberRead};

use crate::{FIELD, NUMBER, POINT};
use point_slices::put_point;

// C1: the number that at most eight bytes stand for, low byte first. One step a byte. Its callers hand in parts of 4 or
// 8 bytes.
fn number_from(bytes: &[u8]) -> u64
    requires { length bytes.now ≤ 8 }
    ensures { (result ≡ number_from bytes.now) × (result < 256 ^ length bytes.now) }
{
    let mut r = 0;
    for &byte in bytes.iter().rev() {
        r = r * 256 + byte as u64;
    }
    r
}

// The number of index i of those that stand in the bytes, `width` bytes each. Its callers see to it that it lies there
// whole.
fn entry(bytes: &[u8], width: usize, i: usize) -> u64
    requires { (width ≤ 8) × (i * width + width ≤ length bytes.now) }
    ensures { (result ≡ number_from (take width (drop (i * width) bytes.now))) × (result < 256 ^ width) }
{
    let start = i * width;
    number_from(&bytes[start..start + width])
}

// C1: the 32-bit number of index i of the contents; `read` sees to it that all eight are there.
pub fn field(file: &[u8], i: usize) -> u32
    requires { (i < 8) × (contents_length ≤ length file.now) }
    ensures { result ≡ get_or (numbers_in field_width 8 file.now) i 0 }
{
    entry(file, FIELD, i) as u32
}

// The number of index i of those that a body holds whole, 1 to 8 bytes each.
fn entry_at(body: &[u8], width: usize, i: usize) -> Option<u64>
    requires { (1 ≤ width) × (width ≤ 8) }
    ensures { EntryIs (number_at width body.now i) result }
{
    if i < body.len() / width {
        Some(entry(body, width, i))
    } else {
        None
    }
}

// C3, F4: the point of index i of the body of points.
pub fn point_at(body: &[u8], i: usize) -> Option<u64>
    ensures { PointRead body.now i result }
{
    entry_at(body, POINT, i)
}

// C3, F4: the clause number of index i of the body of clause numbers.
pub fn number_at(body: &[u8], i: usize) -> Option<u64>
    ensures { NumberRead body.now i result }
{
    entry_at(body, NUMBER, i)
}

// C3, F4: where the permutation of index j of the body of permutations sends variable i + 1.
pub fn image_at(body: &[u8], n: usize, j: usize, i: usize) -> Option<u64>
    ensures { ImageRead n body.now j i result }
{
    if n <= i || body.len() <= i || (body.len() - i - 1) / n < j {
        return None;
    }
    Some(body[j * n + i] as u64)
}

// Copies the first `count` points of a body into a slice of points. Eight steps a point. Its callers see to the room.
pub fn points_into(to: &mut [u64], body: &[u8], count: usize)
    requires { (count ≤ length (points_of to.old)) × (count * point_width ≤ length body.now) }
    ensures { (points_of to.new
        ≡ over (numbers_in point_width count body.now) (points_of to.old))
        × (rest_of to.new ≡ rest_of to.old) }
{
    for i in 0..count {
        put_point(to, i, entry(body, POINT, i));
    }
}

// Copies the first `count` clause numbers of a body into a slice. Four steps a number. Its callers see to the room.
pub fn numbers_into(to: &mut [u32], body: &[u8], count: usize)
    requires { (count ≤ length to.old) × (count * number_width ≤ length body.now) }
    ensures { to.new ≡ over (numbers_in number_width count body.now) to.old }
{
    for i in 0..count {
        to[i] = entry(body, NUMBER, i) as u32;
    }
}

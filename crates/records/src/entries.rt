// Lists of numbers in bytes. Writing takes `count` entries from index `from` on; reading takes `count` entries from byte `start` on.
// Kept: (d) the numbers beside the lists. As a slice, `&entries[from..from + count]`, the contracts would say a `slice` of what they name now.
ghost use Rattle.std.specs.Prelude.{◌≡◌, ◌+◌, ◌*◌, ◌≤◌, length};
ghost use Rattle.std.specs.Float.{binary32};
ghost use Rattle.std.specs.Float.Ieee.{of_bits};
ghost use Rattle.spec_tables.specs.Tables.{overwrite, Put};
ghost use Rattle.spec_records.specs.Little.{little_at};
ghost use Rattle.spec_records.specs.Entries.{number_bytes, float_bytes, numbers_in, floats_in};
ghost use Rattle.records.specs.Values.{shape_of};

use crate::numbers::{number_at, put_number, put_u32, u32_at};
use crate::versions::Version;
use floats::{bits_of, from_bits};

// Writes SIZE bytes an entry, its lowest, from byte `at` on.
pub fn put_numbers<const SIZE: usize>(
    entries: &[u32],
    from: usize,
    count: usize,
    out: &mut [u8],
    at: usize,
) -> usize
    requires { (from + count ≤ length entries.now) × (at + SIZE * count ≤ length out.old) }
    ensures put { Put at (number_bytes SIZE entries.now from count) out.old out.new result }
    ensures value { result ≡ at + SIZE * count }
{
    let mut next = at;
    for entry in &entries[from..from + count] {
        next = put_number::<SIZE>(out, next, *entry as usize);
    }
    next
}

// Writes as many bytes an entry as the version has.
pub fn put_entries(
    version: Version,
    entries: &[u32],
    from: usize,
    count: usize,
    out: &mut [u8],
    at: usize,
) -> usize
    requires { (from + count ≤ length entries.now) × (at + (shape_of version).entry * count ≤ length out.old) }
    ensures put { Put at (number_bytes (shape_of version).entry entries.now from count) out.old out.new result }
    ensures value { result ≡ at + (shape_of version).entry * count }
{
    match version {
        Version::One => put_numbers::<2>(entries, from, count, out, at),
        Version::Two => put_numbers::<4>(entries, from, count, out, at),
    }
}

// Writes the four bytes of each number from byte `at` on. A NaN is written as 7FC00000.
// Kept: (d) floats apart, here and in `read_f32s`: as one, `put_numbers::<4, E: Pattern>(..)`, a trait would say of each entry what `bits_of` says.
pub fn put_f32s(entries: &[f32], from: usize, count: usize, out: &mut [u8], at: usize) -> usize
    requires { (from + count ≤ length entries.now) × (at + 4 * count ≤ length out.old) }
    ensures put { Put at (float_bytes binary32 entries.now from count) out.old out.new result }
    ensures value { result ≡ at + 4 * count }
{
    let mut next = at;
    for entry in &entries[from..from + count] {
        next = put_u32(out, next, bits_of(*entry) as usize);
    }
    next
}

// Leaves the entries, SIZE bytes each, in `out` from index `at` on.
pub fn read_numbers<const SIZE: usize>(
    bytes: &[u8],
    start: usize,
    count: usize,
    out: &mut [u32],
    at: usize,
)
    requires room { (start + SIZE * count ≤ length bytes.now) × (at + count ≤ length out.old) }
    requires size_in_bounds { SIZE ≤ 4 }
    ensures { out.new ≡ overwrite at (numbers_in SIZE bytes.now start count) out.old }
{
    for i in 0..count {
        out[at + i] = number_at::<SIZE>(bytes, start + SIZE * i);
    }
}

// Leaves the entries, each of as many bytes as the version has, in `out` from index `at` on.
pub fn read_entries(
    version: Version,
    bytes: &[u8],
    start: usize,
    count: usize,
    out: &mut [u32],
    at: usize,
)
    requires { (start + (shape_of version).entry * count ≤ length bytes.now) × (at + count ≤ length out.old) }
    ensures { out.new ≡ overwrite at (numbers_in (shape_of version).entry bytes.now start count) out.old }
{
    match version {
        Version::One => read_numbers::<2>(bytes, start, count, out, at),
        Version::Two => read_numbers::<4>(bytes, start, count, out, at),
    }
}

// The number that the four bytes from `at` on stand for. Every pattern of a NaN is read as the one NaN.
pub fn f32_at(bytes: &[u8], at: usize) -> f32
    requires { at + 4 ≤ length bytes.now }
    ensures { result ≡ of_bits binary32 (little_at 4 bytes.now at) }
{
    from_bits(u32_at(bytes, at))
}

// Leaves the numbers, four bytes each, in `out` from index `at` on.
pub fn read_f32s(bytes: &[u8], start: usize, count: usize, out: &mut [f32], at: usize)
    requires { (start + 4 * count ≤ length bytes.now) × (at + count ≤ length out.old) }
    ensures { out.new ≡ overwrite at (floats_in binary32 bytes.now start count) out.old }
{
    for i in 0..count {
        out[at + i] = f32_at(bytes, start + 4 * i);
    }
}

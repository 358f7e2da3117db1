// Lines: words and numbers with one space between them, and a line feed.
// Kept: (a) no `Display`: a line is written into lent bytes, with no heap, and its contract says each of its bytes.
// Kept: (d) `at` beside `out`. As a part, `put_word(&mut out[at..], word)`, each contract would tell what stands in front of the part too.
ghost use Rattle.std.specs.Prelude.{◌≡◌, [], ◌∷◌, ◌+◌, ◌≤◌, length};
ghost use Rattle.spec_tables.specs.Tables.{Put};
ghost use Rattle.spec_printing.specs.Printed.{spaced_decimal, spaced_hex, named, counts_line, found_line, longest_found, nothing_line, refused_line};
ghost use Rattle.printing.specs.Values.{found_of};

use crate::numbers::{put_decimal, put_hex};

// Writes one byte.
fn put_byte(out: &mut [u8], at: usize, byte: u8) -> usize
    requires { at + 1 ≤ length out.old }
    ensures put { Put at (byte ∷ []) out.old out.new result }
    ensures value { result ≡ at + 1 }
{
    out[at] = byte;
    at + 1
}

// Writes the bytes of the word.
fn put_word(out: &mut [u8], at: usize, word: &[u8]) -> usize
    requires { at + length word.now ≤ length out.old }
    ensures { Put at word.now out.old out.new result }
{
    let next = at + word.len();
    out[at..next].copy_from_slice(word);
    next
}

// Kept: (d) decimal and hex apart. As one, `put_spaced(out, at, |out, next| put_hex(out, next, n))`, each call would say more than now.
// Writes a space and the number in decimal.
fn put_spaced_decimal(out: &mut [u8], at: usize, n: usize) -> usize
    requires { at + 21 ≤ length out.old }
    ensures put { Put at (spaced_decimal n) out.old out.new result }
    ensures upper_bound { result ≤ at + 21 }
{
    let next = put_byte(out, at, b' ');
    put_decimal(out, next, n)
}

// Writes a space and the number in hex.
fn put_spaced_hex(out: &mut [u8], at: usize, n: u32) -> usize
    requires { at + 9 ≤ length out.old }
    ensures put { Put at (spaced_hex n) out.old out.new result }
    ensures value { result ≡ at + 9 }
{
    let next = put_byte(out, at, b' ');
    put_hex(out, next, n)
}

// Writes a word and a number behind it.
fn put_named(out: &mut [u8], at: usize, word: &[u8], n: usize) -> usize
    requires { at + length word.now + 21 ≤ length out.old }
    ensures put { Put at (named word.now n) out.old out.new result }
    ensures upper_bound { result ≤ at + length word.now + 21 }
{
    let next = put_word(out, at, word);
    put_spaced_decimal(out, next, n)
}

// Writes the line of a refusal.
pub fn put_refused(out: &mut [u8], at: usize, number: usize, place: usize) -> usize
    requires { at + 50 ≤ length out.old }
    ensures put { Put at (refused_line number place) out.old out.new result }
    ensures upper_bound { result ≤ at + 50 }
{
    let a = put_named(out, at, b"refused", number);
    let b = put_spaced_decimal(out, a, place);
    put_byte(out, b, b'\n')
}

// Writes the line of a tree: its triangles, nodes and depth.
pub fn put_counts(out: &mut [u8], at: usize, triangles: usize, nodes: usize, depth: usize) -> usize
    requires { at + 85 ≤ length out.old }
    ensures put { Put at (counts_line triangles nodes depth) out.old out.new result }
    ensures upper_bound { result ≤ at + 85 }
{
    let a = put_named(out, at, b"triangles", triangles);
    let b = put_named(out, a, b" nodes", nodes);
    let c = put_named(out, b, b" depth", depth);
    put_byte(out, c, b'\n')
}

// Writes the line of a point at which nothing was found.
pub fn put_nothing(out: &mut [u8], at: usize, point: usize) -> usize
    requires { at + 29 ≤ length out.old }
    ensures put { Put at (nothing_line point) out.old out.new result }
    ensures upper_bound { result ≤ at + 29 }
{
    let a = put_decimal(out, at, point);
    let b = put_word(out, a, b" nothing");
    put_byte(out, b, b'\n')
}

// What was found for a point: the number of the triangle, the bits of the surface point and its squared distance, and the number of the part.
#[derive(Clone, Copy)]
pub struct Found {
    pub triangle: usize,
    pub x: u32,
    pub y: u32,
    pub z: u32,
    pub squared: u32,
    pub part: usize,
}

// How many bytes the line of such a point takes at most.
pub const LONGEST_FOUND: usize = 105;

// Writes the line of a point at which this was found.
pub fn put_found(out: &mut [u8], at: usize, point: usize, found: Found) -> usize
    requires { at + longest_found ≤ length out.old }
    ensures put { Put at (found_line point (found_of found)) out.old out.new result }
    ensures upper_bound { result ≤ at + longest_found }
{
    let a = put_decimal(out, at, point);
    let b = put_named(out, a, b" found", found.triangle);
    let c = put_spaced_hex(out, b, found.x);
    let d = put_spaced_hex(out, c, found.y);
    let e = put_spaced_hex(out, d, found.z);
    let f = put_spaced_hex(out, e, found.squared);
    let g = put_spaced_decimal(out, f, found.part);
    put_byte(out, g, b'\n')
}

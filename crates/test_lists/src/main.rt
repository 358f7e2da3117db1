// Prints what the tests of lists, settings and rooms say of inputs at the edges of what passes.
// The file `stdout` beside src/ was written by hand from the table of refusals.
#![tactic(auto)]

ghost use Rattle.std.specs.Prelude.{◌≤◌, ◌<◌};

use lists::refusal::{Refusal, room_refusal};
use lists::settings::{Settings, settings_refusal};
use lists::tests::{distance_refusal, points_refusal, scale_refusal, triangles_refusal};
use test_words::put_refusal;

fn put_number(n: usize) {
    io::print_decimal(1, n as u64);
    io::write_all(1, b" ");
}

fn put_told(told: Result<(), Refusal>) {
    match told {
        Ok(()) => {
            io::write_all(1, b"passed");
        }
        Err(refusal) => put_refusal(refusal),
    }
    io::write_all(1, b"\n");
}

// A triangle list of the first `length` zeros.
fn put_length(zeros: &[f32], length: usize) {
    if length <= zeros.len() {
        io::write_all(1, b"length ");
        put_number(length);
        put_told(triangles_refusal(&zeros[0..length]));
    }
}

// Two triangles, all zeros but for the number with this pattern at this place.
fn put_triangles_with(pattern: u32, place: usize)
    requires { place < 18 }
{
    let mut numbers = [0.0; 18];
    numbers[place] = floats::from_bits(pattern);
    io::write_all(1, b"triangles with ");
    io::print_hex(1, pattern as u64, 8);
    io::write_all(1, b" at ");
    put_number(place);
    put_told(triangles_refusal(&numbers));
}

// A point list of `length` numbers, all zeros but for a NaN at this place.
fn put_points(length: usize, place: usize)
    requires length_len_bound { length ≤ 6 }
    requires place_bound { place < 6 }
{
    let mut numbers = [0.0; 6];
    numbers[place] = floats::from_bits(0x7fc0_0000);
    io::write_all(1, b"points ");
    put_number(length);
    io::write_all(1, b"with a NaN at ");
    put_number(place);
    put_told(points_refusal(&numbers[0..length]));
}

// What a test says of the float with each of these patterns.
fn put_floats<F: Fn(f32) -> Result<(), Refusal>>(name: &[u8], patterns: &[u32], refusal_of: F)
    requires { F.IsAlwaysCallable refusal_of }
{
    for pattern in patterns {
        io::write_all(1, name);
        io::print_hex(1, *pattern as u64, 8);
        io::write_all(1, b" ");
        put_told(refusal_of(floats::from_bits(*pattern)));
    }
}

fn put_settings(strategy: usize, leaf_minimum: usize, maximum_depth: usize) {
    io::write_all(1, b"settings ");
    put_number(strategy);
    put_number(leaf_minimum);
    put_number(maximum_depth);
    put_told(settings_refusal(Settings {
        strategy,
        leaf_minimum,
        maximum_depth,
    }));
}

fn put_room(given: usize, need: usize) {
    io::write_all(1, b"room ");
    put_number(given);
    io::write_all(1, b"of ");
    put_number(need);
    put_told(room_refusal(given, need));
}

// None, a part of one, one, 4,096 and 4,097 triangles, 65,536, a part of one more and 65,537.
const LENGTHS: [usize; 8] = [0, 8, 9, 36864, 36873, 589824, 589825, 589833];

fn put_lengths(zeros: &[f32]) {
    for length in LENGTHS {
        put_length(zeros, length);
    }
}

fn put_all_lengths() {
    let zeros = [0.0; 589833];
    put_lengths(&zeros);
}

// A NaN first and last, infinities, 1,048,576 and 1,048,576.125 with both signs, the smallest
// numbers and minus zero.
fn put_all_triangles() {
    put_triangles_with(0x7fc0_0000, 0);
    put_triangles_with(0x7fc0_0000, 17);
    put_triangles_with(0x7f80_0000, 9);
    put_triangles_with(0xff80_0000, 10);
    put_triangles_with(0x4980_0000, 3);
    put_triangles_with(0x4980_0001, 3);
    put_triangles_with(0xc980_0000, 4);
    put_triangles_with(0xc980_0001, 4);
    put_triangles_with(0x0000_0001, 5);
    put_triangles_with(0x8000_0001, 5);
    put_triangles_with(0x8000_0000, 5);
}

fn put_all_points() {
    put_points(0, 5);
    put_points(1, 5);
    put_points(3, 5);
    put_points(4, 0);
    put_points(5, 0);
    put_points(6, 0);
    put_points(6, 5);
}

// 0, minus zero, the least number and its opposite, 4,194,304 and 4,194,304.5, infinity, a NaN.
const DISTANCES: [u32; 8] = [
    0x0000_0000,
    0x8000_0000,
    0x0000_0001,
    0x8000_0001,
    0x4a80_0000,
    0x4a80_0001,
    0x7f80_0000,
    0x7fc0_0000,
];

// 0, minus zero, the least number and its opposite, 2, 1,000 and the next number, infinity, a NaN.
const SCALES: [u32; 9] = [
    0x0000_0000,
    0x8000_0000,
    0x0000_0001,
    0x8000_0001,
    0x4000_0000,
    0x447a_0000,
    0x447a_0001,
    0x7f80_0000,
    0x7fc0_0000,
];

fn put_all_settings() {
    put_settings(0, 1, 0);
    put_settings(1, 1, 0);
    put_settings(2, 4096, 64);
    put_settings(3, 1, 0);
    put_settings(1, 0, 0);
    put_settings(1, 4097, 0);
    put_settings(2, 65536, 64);
    put_settings(1, 65537, 0);
    put_settings(1, 1, 65);
}

fn main() {
    put_all_lengths();
    put_all_triangles();
    put_all_points();
    put_floats(b"distance ", &DISTANCES, distance_refusal);
    put_all_settings();
    put_room(0, 1);
    put_room(1, 1);
    put_room(2, 1);
    put_floats(b"scale ", &SCALES, scale_refusal);
}

// Prints what the functions of `floats` give at the values where they could go wrong.
// The file `stdout` beside src/ is made by tests/floats/generate.rs, in Rust.
#![tactic(auto)]

const EACH: [u32; 24] = [
    0x0000_0000,
    0x8000_0000,
    0x0000_0001,
    0x8000_0001,
    0x007f_ffff,
    0x0080_0000,
    0x3f00_0000,
    0x3f7f_ffff,
    0x3f80_0000,
    0xbf7f_ffff,
    0xbf80_0000,
    0x4049_0fdb,
    0x4b7f_ffff,
    0x5f7f_ffff,
    0x5f80_0000,
    0x5f80_0001,
    0x7f7f_ffff,
    0xff7f_ffff,
    0x7f80_0000,
    0xff80_0000,
    0x7fc0_0000,
    0xffc0_0001,
    0x7f80_0001,
    0xffff_ffff,
];

const SOME: [u32; 10] = [
    0x0000_0000,
    0x8000_0000,
    0x0000_0001,
    0x8000_0001,
    0x3f80_0000,
    0xbf80_0000,
    0x7f7f_ffff,
    0x7f80_0000,
    0xff80_0000,
    0x7fc0_0000,
];

fn put_word(pattern: u32) {
    io::print_hex(1, pattern as u64, 8);
    io::write_all(1, b" ");
}

fn put_float(x: f32) {
    put_word(floats::bits_of(x));
}

fn put_end() {
    io::write_all(1, b"\n");
}

// Prints the pattern, the number read from it, that plus zero, its magnitude, whether it is finite, and its whole number.
fn put_each(pattern: u32) {
    let x = floats::from_bits(pattern);
    put_word(pattern);
    put_float(x);
    put_float(floats::plus_zero(x));
    put_float(floats::absolute(x));
    put_word(floats::is_finite(x) as u32);
    io::print_hex(1, floats::cut(x) as u64, 16);
    put_end();
}

// Prints two patterns, and the smaller and the larger of their numbers.
fn put_pair(first: u32, second: u32) {
    let a = floats::from_bits(first);
    let b = floats::from_bits(second);
    put_word(first);
    put_word(second);
    put_float(floats::min2(a, b));
    put_float(floats::max2(a, b));
    put_end();
}

// Prints three patterns, and the third's number held between the first's and the second's.
fn put_held(lo: u32, hi: u32, x: u32) {
    put_word(lo);
    put_word(hi);
    put_word(x);
    put_float(floats::held(
        floats::from_bits(lo),
        floats::from_bits(hi),
        floats::from_bits(x),
    ));
    put_end();
}

// The 24 values come first, then the pairs of the ten, each before its ten triples.
fn main() {
    for pattern in EACH {
        put_each(pattern);
    }
    for first in SOME {
        for second in SOME {
            put_pair(first, second);
            for x in SOME {
                put_held(first, second, x);
            }
        }
    }
}

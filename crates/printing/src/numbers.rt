// Numbers in decimal and in hex.
// Kept: (d) `at` beside `out`. As a part, `put_hex(&mut out[at..], n)`, each contract would tell what stands in front of the part too.
ghost use Rattle.std.specs.Prelude.{◌≡◌, ◌+◌, ◌≤◌, ◌<◌, length};
ghost use Rattle.spec_tables.specs.Tables.{Put};
ghost use Rattle.spec_printing.specs.Printed.{digit, digits, width, decimal, hex};

// The digit as a character.
fn digit_of(d: usize) -> u8
    requires { d < 16 }
    ensures { result ≡ digit d }
{
    if d < 10 {
        b'0' + d as u8
    } else {
        b'a' + (d - 10) as u8
    }
}

// Writes the lowest `count` digits of n in a base, from the last one backwards.
fn put_digits(out: &mut [u8], at: usize, base: usize, count: usize, n: usize) -> usize
    requires count_in_bounds { at + count ≤ length out.old }
    requires base_in_range { (0 < base) × (base ≤ 16) }
    ensures put { Put at (digits base count n) out.old out.new result }
    ensures value { result ≡ at + count }
{
    let mut rest = n;
    for k in (0..count).rev() {
        out[at + k] = digit_of(rest % base);
        rest /= base;
    }
    at + count
}

// How many decimal digits n has.
fn width_of(n: usize) -> usize
    ensures { (result ≡ width n) × (result ≤ 20) }
{
    n.max(1).ilog10() as usize + 1
}

// Writes n in decimal, without leading zeros.
pub fn put_decimal(out: &mut [u8], at: usize, n: usize) -> usize
    requires { at + 20 ≤ length out.old }
    ensures put { Put at (decimal n) out.old out.new result }
    ensures upper_bound { result ≤ at + 20 }
{
    put_digits(out, at, 10, width_of(n), n)
}

// Writes n in hex, eight digits.
pub fn put_hex(out: &mut [u8], at: usize, n: u32) -> usize
    requires { at + 8 ≤ length out.old }
    ensures put { Put at (hex n) out.old out.new result }
    ensures value { result ≡ at + 8 }
{
    put_digits(out, at, 16, 8, n as usize)
}

// One number in bytes, the lowest byte first.
// Kept: (d) `at` beside the bytes. As a part, `put_u16(&mut out[at..], n)`, each contract would tell what stands in front of the part too.
ghost use Rattle.std.specs.Prelude.{◌≡◌, ◌+◌, ◌^◌, ◌≤◌, ◌<◌, length};
ghost use Rattle.spec_tables.specs.Tables.{Put};
ghost use Rattle.spec_records.specs.Little.{little, little_at};

// The number of the SIZE bytes from `at` on.
pub fn number_at<const SIZE: usize>(bytes: &[u8], at: usize) -> u32
    requires at_in_bounds { at + SIZE ≤ length bytes.now }
    requires size_in_bounds { SIZE ≤ 4 }
    ensures value { result ≡ little_at SIZE bytes.now at }
    ensures upper_bound { result < 256 ^ SIZE }
{
    let mut n = 0;
    for k in 0..SIZE {
        n += u32::from(bytes[at + k]) << (8 * k);
    }
    n
}

// The number of the two bytes from `at` on.
pub fn u16_at(bytes: &[u8], at: usize) -> u32
    requires { at + 2 ≤ length bytes.now }
    ensures value { result ≡ little_at 2 bytes.now at }
    ensures upper_bound { result < 65536 }
{
    number_at::<2>(bytes, at)
}

// The number of the four bytes from `at` on.
pub fn u32_at(bytes: &[u8], at: usize) -> u32
    requires { at + 4 ≤ length bytes.now }
    ensures { result ≡ little_at 4 bytes.now at }
{
    number_at::<4>(bytes, at)
}

// Writes the lowest SIZE bytes of n.
pub fn put_number<const SIZE: usize>(out: &mut [u8], at: usize, n: usize) -> usize
    requires { at + SIZE ≤ length out.old }
    ensures put { Put at (little SIZE n) out.old out.new result }
    ensures value { result ≡ at + SIZE }
{
    let mut rest = n;
    for k in 0..SIZE {
        out[at + k] = (rest % 256) as u8;
        rest /= 256;
    }
    at + SIZE
}

// Writes the lowest two bytes of n.
pub fn put_u16(out: &mut [u8], at: usize, n: usize) -> usize
    requires { at + 2 ≤ length out.old }
    ensures put { Put at (little 2 n) out.old out.new result }
    ensures value { result ≡ at + 2 }
{
    put_number::<2>(out, at, n)
}

// Writes the lowest four bytes of n.
pub fn put_u32(out: &mut [u8], at: usize, n: usize) -> usize
    requires { at + 4 ≤ length out.old }
    ensures put { Put at (little 4 n) out.old out.new result }
    ensures value { result ≡ at + 4 }
{
    put_number::<4>(out, at, n)
}

// The square root of an f32, rounded once: the f32 nearest the exact root. Floating point guesses its digits, and whole numbers test the guess.
ghost use Rattle.std.specs.Prelude.{◌≡◌, ◌*◌, ◌^◌, ◌<◌, ◌≤◌, T};
ghost use Rattle.std.specs.Float.{binary32};
ghost use Rattle.spec_angles.specs.Root as Root;
ghost use Rattle.spec_angles.specs.RootByBits.{units_of, Scaled, InFours};

// The largest r whose square is at most n. The root lies from `r` on and below `r + step`, and each turn halves that interval.
fn whole_root(n: u64) -> u64
    requires { n < 2 ^ 48 }
    ensures { result ≡ Root.whole_root 24 n }
{
    let mut r: u64 = 0;
    let mut step: u64 = 0x1000000;
    while step > 1 {
        step = (step + 1) / 2;
        let middle = r + step;
        if middle * middle <= n {
            r = middle;
        }
    }
    r
}

// A step of Heron's method: where g is near the root of x, the answer has about twice as many right digits.
fn heron(x: f64, g: f64) -> f64 {
    0.5 * (g + x / g)
}

// A guess at the whole number nearest the root of n, by floating point. Only its size is proved: `nearest_root` tests it.
// Where n has 47 or 48 binary digits it is y * 2 ^ 46 with y from 1 to 4. There the parabola, 2 ^ 23 * (0.5186 + 0.526 * y - 0.0395375 * y ^ 2),
// is within 0.6% of the root, and two steps on within 0.002 of it. The sum with 2 ^ 52 rounds to a whole number, which stands in its low bits.
fn guess(n: u64) -> u64
    ensures { result < 2 ^ 25 }
{
    let x = std::num::nearest_u64_to_f64(n);
    let parabola = 4350332.1088 + x * (6.270408630371094e-8 - 6.69791303041338e-23 * x);
    let shifted = heron(x, heron(x, parabola)) + 4503599627370496.0;
    if shifted.is_nan() {
        0
    } else {
        shifted.to_bits() % 0x2000000
    }
}

// The whole number nearest the root of n: a guess that passes two tests, which only the nearest one does.
// About 4 in 10,000 guesses fail them, where the root is within 0.002 of half way between two whole numbers. There it is found by halving:
// the root is above r + 1/2 where n is above r * r + r, and never r + 1/2 itself, whose square is no whole number.
fn nearest_root(n: u64) -> u64
    requires { n < 2 ^ 48 }
    ensures { result ≡ Root.nearer n (Root.whole_root 24 n) }
{
    let g = guess(n);
    if g * g < n + g && n <= g * g + g {
        return g;
    }
    let r = whole_root(n);
    if n - r * r > r { r + 1 } else { r }
}

// digits * 4 ^ scale, where `digits` has 47 or 48 binary digits: so its root has 24, as an f32 has.
#[derive(Clone, Copy)]
struct ByFours {
    digits: u64,
    scale: u32,
}

// significand * 2 ^ power, written so.
fn by_fours(significand: u32, power: u32) -> ByFours
    requires { (0 < significand) × (significand < 2 ^ 24) × (149 ≤ power) × (power < 403) }
    ensures { InFours significand power result.digits result.scale }
{
    let spare = significand.leading_zeros() - 8;
    let rest = power - spare - 23;
    let shift = spare + 23 + rest % 2;
    ByFours {
        digits: u64::from(significand) << shift,
        scale: rest / 2,
    }
}

// 2 ^ 149 times the number, in units of 2 ^ -149, that the bits of a positive f32 stand for.
// A subnormal number has no leading digit, and counts as one with 1 in the field of its exponent.
fn scaled(bits: u32) -> ByFours
    requires { (0 < bits) × (bits < 0x7f80_0000) }
    ensures { Scaled (units_of bits) result.digits result.scale }
{
    if bits < 0x800000 {
        by_fours(bits, 149)
    } else {
        by_fours(0x800000 + bits % 0x800000, 148 + bits / 0x800000)
    }
}

// The f32 nearest the root of x. The root of -0 is +0: a root is not negative.
pub fn root(x: f32) -> f32
    requires { T (Root.rootable x) }
    ensures { result ≡ Root.root binary32 x }
{
    if x == 0.0 {
        return 0.0;
    }
    let s = scaled(x.to_bits());
    let r = nearest_root(s.digits);
    f32::from_bits(s.scale * 0x800000 + r as u32)
}

// The root of x, or a NaN where it has none.
pub fn root_or_nan(x: f32) -> f32
    ensures { result ≡ Root.root_or_nan binary32 x }
{
    if floats::is_finite(x) & (x >= 0.0) {
        root(x)
    } else {
        f32::NAN
    }
}

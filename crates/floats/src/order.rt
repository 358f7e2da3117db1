// The smaller and the larger of two numbers, holding into an interval, and the tests and signs around zero.
ghost use Rattle.std.specs.Prelude.{◌≡◌};
ghost use Rattle.std.specs.Float.Ieee.Scale.{finite};
ghost use Rattle.spec_numbers.specs.Hold as Hold;
ghost use Rattle.spec_numbers.specs.Values as Values;

// The smaller of the two, the first where they are equal.
// Kept: (a) `f32::min` and `f32::max` leave open which of +0 and -0 they answer, and pass over a NaN; `Hold.smaller` and `Hold.larger` fix both.
pub fn min2(a: f32, b: f32) -> f32
    ensures { result ≡ Hold.smaller a b }
{
    if b < a { b } else { a }
}

// The larger of the two, the first where they are equal.
pub fn max2(a: f32, b: f32) -> f32
    ensures { result ≡ Hold.larger a b }
{
    if a < b { b } else { a }
}

// x, or lo where x is below it.
pub fn raise(lo: f32, x: f32) -> f32
    ensures { result ≡ Hold.raise lo x }
{
    max2(x, lo)
}

// x, or hi where x is above it.
pub fn lower(hi: f32, x: f32) -> f32
    ensures { result ≡ Hold.lower hi x }
{
    min2(x, hi)
}

// x held into the interval from lo to hi: raised to lo, then lowered to hi.
pub fn held(lo: f32, hi: f32, x: f32) -> f32
    ensures { result ≡ Hold.held lo hi x }
{
    lower(hi, raise(lo, x))
}

// Whether x is neither a NaN nor an infinity.
pub fn is_finite(x: f32) -> bool
    ensures { result ≡ finite x }
{
    x.is_finite()
}

// x, but +0 for -0.
pub fn plus_zero(x: f32) -> f32
    ensures { result ≡ Values.plus_zero x }
{
    x + 0.0
}

// The magnitude of x. The sum turns -0 into +0.
// Kept: (b) by `x.abs()` a winding number takes 1.02 of its time, in each of two drawings.
pub fn absolute(x: f32) -> f32
    ensures { result ≡ Values.abs x }
{
    if x < 0.0 { -x } else { x + 0.0 }
}

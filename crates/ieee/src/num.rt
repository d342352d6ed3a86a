// Rust's small functions on f64.
ghost use Rattle.std.specs.Prelude.{◌≡◌};
ghost use Rattle.std.specs.Float.Ieee.{is_nan};
ghost use Rattle.ieee.specs.Consts.{infinity_f};
ghost use Rattle.ieee.specs.Num.{finite, abs_of, plain_zero, max_of, min_of, clamp_of, same_of};

use crate::bits::pattern;

#[tactic(auto, using(crate::proofs::Values::nan_test))]
pub fn is_nan(x: f64) -> bool
    ensures { result ≡ is_nan x }
{
    x != x
}

pub fn infinity() -> f64
    ensures { result ≡ infinity_f }
{
    f64::INFINITY
}

#[tactic(auto, using(crate::proofs::Values::finite_test))]
pub fn is_finite(x: f64) -> bool
    ensures { result ≡ finite x }
{
    (x < infinity()) & (-infinity() < x)
}

#[tactic(auto, using(crate::proofs::Values::abs_is))]
pub fn abs(x: f64) -> f64
    ensures { result ≡ abs_of x }
{
    if x < 0.0 {
        -x
    } else if x == 0.0 {
        0.0
    } else {
        x
    }
}

// +0.0 for either zero.
pub fn plain_zero(x: f64) -> f64
    ensures { result ≡ plain_zero x }
{
    if x == 0.0 { 0.0 } else { x }
}

pub fn max(a: f64, b: f64) -> f64
    ensures { result ≡ max_of a b }
{
    if is_nan(a) || a < b { b } else { a }
}

pub fn min(a: f64, b: f64) -> f64
    ensures { result ≡ min_of a b }
{
    if is_nan(a) || b < a { b } else { a }
}

// Rust's x.clamp(0.0, 1.0).
pub fn clamp(x: f64) -> f64
    ensures { result ≡ clamp_of x }
{
    if x < 0.0 {
        0.0
    } else if 1.0 < x {
        1.0
    } else {
        x
    }
}

// Rust's x.to_bits() == y.to_bits(), two NaNs being the same.
pub fn same(x: f64, y: f64) -> bool
    ensures { result ≡ same_of x y }
{
    pattern(x) == pattern(y)
}

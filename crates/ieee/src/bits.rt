// Floats and their bit patterns.
ghost use Rattle.std.specs.Prelude.{◌≡◌};
ghost use Rattle.std.specs.Float.{binary64};
ghost use Rattle.std.specs.Float.Ieee.{of_bits, to_bits};

// The bit pattern of x; a NaN's is 7ff8000000000000.
#[tactic(auto, using(crate::proofs::Values::patterns))]
pub fn pattern(x: f64) -> u64
    ensures { result ≡ to_bits binary64 x }
{
    if x != x {
        return 0x7ff8_0000_0000_0000;
    }
    f64::to_bits(x)
}

// The float of a bit pattern; every NaN's pattern gives the NaN.
#[tactic(auto, using(crate::proofs::Values::patterns))]
pub fn of_pattern(b: u64) -> f64
    ensures { result ≡ of_bits binary64 b }
{
    if 0x7ff0_0000_0000_0000 < b % 0x8000_0000_0000_0000 {
        return f64::NAN;
    }
    f64::from_bits(b)
}

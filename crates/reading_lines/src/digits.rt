// Whole numbers and floats, written as digits into a part of a lent slice.
ghost use Rattle.std.specs.Prelude.{◌≡◌, ◌+◌, ◌<◌, ◌≤◌, length};
ghost use Rattle.std.proofs.lemmas.List.Edits.{sets};
ghost use Rattle.reading_lines.specs.Digits.{digit_of, last_digits, digit_count, decimal_of, pattern_of};

// The byte of a digit.
fn digit(d: u64) -> u8
    requires { d < 16 }
    ensures { result ≡ digit_of d }
{
    if d < 10 {
        return b'0' + d as u8;
    }
    b'a' + (d - 10) as u8
}

// The last n digits of v in a base, written from `at` on.
fn put_digits(out: &mut [u8], at: usize, base: u64, n: usize, v: u64)
    requires { (2 ≤ base) × (base ≤ 16) × (at + n ≤ length out.old) }
    ensures { out.new ≡ sets out.old at (last_digits base n v) }
{
    let mut rest = v;
    for i in (0..n).rev() {
        out[at + i] = digit(rest % base);
        rest /= base;
    }
}

// How many decimal digits v has.
fn digit_count(v: u64) -> usize
    ensures { result ≡ digit_count 19 v }
{
    match v.checked_ilog10() {
        Some(k) => k as usize + 1,
        None => 1,
    }
}

// A whole number, written from `at` on; the place behind it.
#[tactic(auto, unfolding(crate::specs::Digits::decimal_of), using(crate::proofs::DigitLaws::length_last))]
pub(crate) fn put_number(out: &mut [u8], at: usize, v: usize) -> usize
    requires { at + length (decimal_of v) ≤ length out.old }
    ensures { (result ≡ at + length (decimal_of v)) × (out.new ≡ sets out.old at (decimal_of v)) }
{
    let w = v as u64;
    let n = digit_count(w);
    put_digits(out, at, 10, n, w);
    at + n
}

// A float, written from `at` on; the place behind it.
#[tactic(auto, unfolding(crate::specs::Digits::pattern_of))]
pub(crate) fn put_pattern(out: &mut [u8], at: usize, x: f64) -> usize
    requires { at + 16 ≤ length out.old }
    ensures { (result ≡ at + 16) × (out.new ≡ sets out.old at (pattern_of x)) }
{
    put_digits(out, at, 16, 16, ieee::bits::pattern(x));
    at + 16
}

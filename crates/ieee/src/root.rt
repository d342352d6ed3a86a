// The square root of IEEE 754-2019: `root`. A guess at the root's significand is made in floats, of which nothing is proved, and is then settled by
// its exact square in whole numbers; where it is off by more than one, a bisection finds the significand. Powers of two that stand below in digits:
// 2^25 = 33554432, 2^26 = 67108864, 2^27 = 134217728, 2^52 = 4503599627370496, 2^53 = 9007199254740992, 2^54 = 18014398509481984, 2^58 = 288230376151711744.
ghost use Rattle.std.specs.Prelude.{◌≡◌, ◌+◌, ◌-◌, ◌*◌, ◌/◌, ◌^◌, ◌<◌, ◌≤◌, leb};
ghost use Rattle.std.specs.Float.{binary64};
ghost use Rattle.std.specs.Float.Ieee.{of_bits};
ghost use Rattle.ieee.specs.Near.{Near, Range, Moved};
ghost use Rattle.ieee.specs.Root.{root_of, IsRoot};

// Whether the root of m * 2^52 is below q + 1/2, whose square is q * q + q + 1/4. With q cut at its lowest 26 bits, q * q is h * 2^52 + l.
#[tactic(auto, using(crate::proofs::Halves::halves))]
fn over(q: u64, m: u64) -> bool
    requires { q < 2 ^ 53 }
    ensures { result ≡ leb (m * 2 ^ 52) (q * q + q) }
{
    let a = q / 67108864;
    let b = q % 67108864;
    let s = a * b;
    let h = a * a + s / 33554432;
    let l = s % 33554432 * 134217728 + b * b;
    m <= h + (l + q) / 4503599627370496
}

// The whole number nearest to the root of m * 2^52, by bisection.
fn search(m: u64) -> u64
    requires { Range m }
    ensures { Near m result }
{
    let mut lo = 4503599627370495u64;
    let mut hi = 9007199254740991u64;
    while lo + 1 < hi {
        let mid = lo + (hi - lo) / 2;
        if over(mid, m) {
            hi = mid;
        } else {
            lo = mid;
        }
    }
    hi
}

// An estimate of the root of x, whose pattern is b. Nothing is proved of it: a wrong one costs time alone. The pattern gives z, which is 1 / root(x) within 7 %, and
// u = x * z * z, which is near 1. A polynomial of the fifth degree in u, whose factors are c and d, makes z * d * c half of 1 / root(x) within 3e-10; s is the root so
// found, and one step of Newton's makes it right to a unit in the last place or so.
#[tactic(auto, using(crate::proofs::Values::no_nan_pattern))]
fn estimate(x: f64, b: u64) -> f64
    requires { b < 0x7ff0_0000_0000_0000 }
{
    let z = f64::from_bits(0x5fe4_0000_0000_0000 - b / 2);
    let p = x * z;
    let u = p * z;
    let k = u - 0.20411717799212734;
    let n = u - 1.287727396096471;
    let c = (k * k + 0.6850982549066285) * (n * n + 0.9105284212493494);
    let d = (1.8853784779663318 - u) * 0.43116345845602635;
    let s = (p + p) * d * c;
    s + z * d * c * (x - s * s)
}

// A guess at the significand of the root of x, whose pattern is b; e is the root's pattern less its significand. Its contract says only that it has 54 bits.
#[tactic(auto, using(crate::proofs::Values::le_no_nan))]
fn guess(x: f64, b: u64, e: u64) -> u64
    requires { b < 0x7ff0_0000_0000_0000 }
    ensures { result < 2 ^ 54 }
{
    let t = estimate(x, b);
    if t >= 0.0 {
        let u = f64::to_bits(t);
        if u >= e {
            let g = u - e;
            if g < 18014398509481984 {
                return g;
            }
        }
    }
    0
}

// The whole number nearest to the root of m * 2^52, from a guess g at it, whose square is h * 2^52 + l. The number d is 2^58 more than m * 2^52 - g * g. Where that
// difference lies within 3 * 2^52 of zero, the root is nearest to g or to a neighbour of it: to g + 1 where the difference is above g, to g - 1 where it is at most -g.
// The two quotients by 2^58 are 0 or 1 and say which, without a branch. From a guess that is further off, the root is searched for.
fn significand(m: u64, g: u64) -> u64
    requires in_range { Range m }
    requires few_bits { g < 2 ^ 54 }
    ensures { Near m result }
{
    let a = g / 67108864;
    let b = g % 67108864;
    let s = a * b;
    let h = a * a + s / 33554432;
    let l = s % 33554432 * 134217728 + b * b;
    if h <= m + 62 {
        let k = m + 64 - h;
        if k < 4096 {
            let d = k * 4503599627370496 - l;
            let i = d / 4503599627370496;
            if i >= 61 {
                if i < 67 {
                    let f = d - 1;
                    return (f - g) / 288230376151711744 + (f + g) / 288230376151711744 + g - 1;
                }
            }
        }
    }
    search(m)
}

// The number m * 4^j.
#[derive(Clone, Copy)]
struct Scaled {
    m: u64,
    j: u64,
}

// The same number with an m of 53 or 54 bits. Only a subnormal number's m has fewer to begin with.
fn normalized(m: u64, j: u64) -> Scaled
    requires { (0 < m) × (m ≤ 2 ^ 54 - 2) × (511 ≤ j) }
    ensures { Moved m j result.m result.j }
{
    let mut n = m;
    let mut k = j;
    while n < 4503599627370496 {
        n = n * 4;
        k -= 1;
    }
    Scaled { m: n, j: k }
}

// The root of the number above zero, and not subnormal, whose pattern is b. The number itself is x, and serves for the guess alone. The number is m * 4^k for an m of
// 53 or 54 bits, as the exponent's field is odd or even. The root's pattern is e and its significand q in one sum: the highest digit of q adds one to the exponent's field.
fn normal(x: f64, b: u64) -> f64
    requires { (2 ^ 52 ≤ b) × (b < 0x7ff0_0000_0000_0000) }
    ensures { result ≡ root_of (of_bits binary64 b) }
{
    let c = b - 4503599627370496;
    let w = c % 9007199254740992;
    let m = (w % 4503599627370496 + 4503599627370496) * (1 + w / 4503599627370496);
    let e = (511 + c / 9007199254740992) * 4503599627370496;
    let q = significand(m, guess(x, b, e));
    f64::from_bits(e + q)
}

// The pattern of m / 2^52, which lies from 1 to 4, less that of 1; with m's last digit dropped where there is no room for it.
fn digits(m: u64) -> u64
    requires { Range m }
    ensures { result < 2 ^ 53 }
{
    if m < 9007199254740992 {
        m - 4503599627370496
    } else {
        m / 2
    }
}

// The root of the subnormal number whose pattern is b. The guess is that of the root of n.m / 2^52, which lies from 1 to 2: its pattern is 1022 * 2^52, the number
// below, and its significand.
fn subnormal(b: u64) -> f64
    requires { (0 < b) × (b < 2 ^ 52) }
    ensures { result ≡ root_of (of_bits binary64 b) }
{
    let n = normalized(b, 511);
    let v = 0x3ff0_0000_0000_0000 + digits(n.m);
    let g = guess(f64::from_bits(v), v, 4602678819172646912);
    let q = significand(n.m, g);
    f64::from_bits(n.j * 4503599627370496 + q)
}

// The square root of x, rounded once to the nearest double. `IsRoot` is what IEEE 754 says of it; `root_of` is the one double of which that holds.
pub fn root(x: f64) -> f64
    ensures value { result ≡ root_of x }
    ensures is_root { IsRoot x result }
{
    if x != x {
        return x;
    }
    let b = f64::to_bits(x);
    if b >= 4503599627370496 {
        if b < 0x7ff0_0000_0000_0000 {
            return normal(x, b);
        }
        if b == 0x7ff0_0000_0000_0000 {
            return x;
        }
        if b == 0x8000_0000_0000_0000 {
            return x;
        }
        return f64::NAN;
    }
    if b == 0 {
        return x;
    }
    subnormal(b)
}

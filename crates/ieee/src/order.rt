// The total order of floats: Rust's f64::total_cmp, for one NaN that ranks above all numbers.
ghost use Rattle.std.specs.Prelude.{◌≡◌, true, false};
ghost use Rattle.ieee.specs.TotalOrder.{is_zero, total_order, ordering_of, total_of};

use crate::num::is_nan;
use std::cmp::Ordering;

#[tactic(auto, using(crate::proofs::Values::plus_zero_test))]
fn is_plus_zero(x: f64) -> bool
    ensures { result ≡ is_zero false x }
{
    (x == 0.0) & (0.0 < 1.0 / x)
}

#[tactic(auto, using(crate::proofs::Values::minus_zero_test))]
fn is_minus_zero(x: f64) -> bool
    ensures { result ≡ is_zero true x }
{
    (x == 0.0) & (1.0 / x < 0.0)
}

// Whether x stands no later than y.
#[tactic(auto, unfolding(crate::specs::TotalOrder::total_order))]
pub fn total_order(x: f64, y: f64) -> bool
    ensures { result ≡ total_order x y }
{
    is_nan(y) | ((x < y) | ((x == y) & !(is_plus_zero(x) & is_minus_zero(y))))
}

fn answer(no_later: bool, no_sooner: bool) -> Ordering
    ensures { result ≡ ordering_of no_later no_sooner }
{
    match (no_later, no_sooner) {
        (true, true) => Ordering::Equal,
        (true, false) => Ordering::Less,
        (false, _) => Ordering::Greater,
    }
}

pub fn total_cmp(x: f64, y: f64) -> Ordering
    ensures { result ≡ total_of x y }
{
    answer(total_order(x, y), total_order(y, x))
}

// The rows of a mechanism at a pose (contact/rows.rs: hiding, margin, `push`, `rows`), with their gradients and slips, into lent arrays.
#![tactic(auto)]

ghost use Rattle.std.specs.Prelude.{◌≡◌, true, map, ◌+◌, ◌*◌, ◌≤◌, length};
ghost use Rattle.mechanism.specs.Check.{check_of, pair_drawn};
ghost use Rattle.mechanism.specs.Rows.{place_row, value_row, lists_of};
ghost use Rattle.sides.specs.Bounds.{row_bound};
ghost use Rattle.sides.specs.Contacts.{pair_features, mechanism_bound};
ghost use Rattle.pair_rows.specs.PairRows.{Put, Room, SameArrays};
ghost use Rattle.shown_rows.specs.Rows.{rows_of, grads_of, slips_of, rows_checked, answer_if, rows_asked, shown_lists, rows_over};

use bodies::Problem;
use bodies::pose::Pose;
use candidates::pair_candidates;
use drawing::body_of_side;
use mechanism::check::call_checked;
use mechanism::pair::{ContactPair, PairGeometry};
use mechanism::rows::LentRows;
use mechanism::{Mechanism, Outlines, Parts};
use pair_rows::{Source, put_shown};
use proximities::blank_candidate;
use sides::SideFeatures;
use sides::contacts::pair_features_at;

// Writes the rows of all pairs of an accepted description.
fn put_rows(rows: &mut LentRows, m: Mechanism, q: Pose, margin: f64) -> usize
    requires { (check_of m ≡ Ok tt) × Room m.bodies.coords 0 (mechanism_bound m) (lists_of rows.old) }
    ensures written { Put m.bodies.coords (map place_row (rows_of m q margin)) (map value_row (rows_of m q margin))
        (grads_of m q margin) (slips_of m q margin) 0 result (lists_of rows.old) (lists_of rows.new) }
    ensures same { SameArrays rows.old rows.new }
{
    let mut candidates = [blank_candidate(); 784];
    let mut at = 0;
    for i in 0..m.pairs.count {
        let p = m.pairs.pair[i];
        let s = Source {
            pair: i,
            a: body_of_side(m.parts, p.a),
            b: body_of_side(m.parts, p.b),
        };
        let n = pair_candidates(&mut candidates, m.parts, m.outlines, q, p);
        at = put_shown(rows, at, s, &candidates[..n], margin, m.bodies, q);
    }
    at
}

// ---- the bound

#[tactic(auto, using(crate::proofs::Bound::products_small))]
fn bound_by(g: PairGeometry, a: SideFeatures, b: SideFeatures) -> usize
    requires { (a.faces ≤ 12) × (a.discs ≤ 28) × (b.faces ≤ 12) × (b.discs ≤ 28) }
    ensures { result ≡ row_bound g a b }
{
    match g {
        PairGeometry::Features => a.discs * b.faces + b.discs * a.faces + a.discs * b.discs,
        PairGeometry::CenterBearing => a.faces,
    }
}

fn pair_bound(ps: Parts, o: Outlines, p: ContactPair) -> usize
    requires { pair_drawn ps p ≡ true }
    ensures { result ≡ row_bound p.geometry (pair_features ps o p).a (pair_features ps o p).b }
{
    let f = pair_features_at(ps, o, p);
    bound_by(p.geometry, f.a, f.b)
}

// The sum of the pairs' bounds.
fn bound_of(m: Mechanism) -> usize
    requires { check_of m ≡ Ok tt }
    ensures { (result ≡ mechanism_bound m) × (result ≤ 12544) }
{
    let mut sum = 0;
    for i in 0..m.pairs.count {
        sum += pair_bound(m.parts, m.outlines, m.pairs.pair[i]);
    }
    sum
}

// The first refusal that applies to a call with so many rows, gradients and slips lent.
pub fn rows_checked(
    m: Mechanism,
    q: Pose,
    places: usize,
    values: usize,
    grad: usize,
    slip: usize,
) -> Result<(), Problem>
    ensures { result ≡ rows_checked m q places values grad slip }
{
    call_checked(m, q.fits(m.bodies), true, true)?;
    let bound = bound_of(m);
    let columns = bound * m.bodies.coords;
    if ((bound <= places) & (bound <= values)) & ((columns <= grad) & (columns <= slip)) {
        return Ok(());
    }
    Err(Problem::TooFewRows)
}

// Writes the rows of every pair whose gap is not above the margin, with their gradients and slips, one float a coordinate each, and answers how many; everything past the last row stays.
pub fn rows_in_numbers(
    m: Mechanism,
    q: Pose,
    margin: f64,
    rows: &mut LentRows,
) -> Result<usize, Problem>
    ensures value { result ≡ answer_if (rows_asked m q (lists_of rows.old)) (length (rows_of m q margin)) }
    ensures after { lists_of rows.new ≡ rows_over (rows_asked m q (lists_of rows.old)) (shown_lists m q margin) (lists_of rows.old) }
    ensures same { SameArrays rows.old rows.new }
{
    rows_checked(
        m,
        q,
        rows.places.len(),
        rows.values.len(),
        rows.grad.len(),
        rows.slip.len(),
    )?;
    Ok(put_rows(rows, m, q, margin))
}

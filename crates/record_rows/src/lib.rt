// The rows of a mechanism at a pose as records in a lent slice (contact/rows.rs: `rows`), pair by pair: each pair's rows are written as numbers, then as records behind those of the pairs before.
#![tactic(auto)]

ghost use Rattle.std.specs.Prelude.{◌≡◌, map, ◌+◌, ◌<◌, ◌≤◌, length};
ghost use Rattle.std.proofs.lemmas.List.Edits.{sets};
ghost use Rattle.mechanism.specs.Check.{check_of};
ghost use Rattle.mechanism.specs.Rows.{place_row, value_row};
ghost use Rattle.sides.specs.Contacts.{pair_bound};
ghost use Rattle.pair_rows.specs.PairRows.{Put, Room};
ghost use Rattle.shown_rows.specs.Rows.{rows_of_pair, grads_of_pair, slips_of_pair, rows_of, grads_of, slips_of, answer_if, if_accepted};
ghost use Rattle.record_rows.specs.Records.{records_checked};
ghost use Rattle.record_rows.specs.Steps.{lists_in, rows_first, grads_first, slips_first, records_in, held_in, PairRoom, PairRead};

use bodies::Problem;
use bodies::pose::Pose;
use candidates::pair_candidates;
use drawing::body_of_side;
use mechanism::Mechanism;
use mechanism::rows::{LentRows, Place, Row, Value};
use pair_rows::{Source, put_shown};
use proximities::blank_candidate;
use shown_rows::rows_checked;

// The records of a pair: the first `count` of them.
#[derive(Clone, Copy)]
pub struct PairRecords {
    row: [Row; 784],
    count: usize,
}

// ---- one pair, in numbers

// Writes the rows of pair i, with their gradients and slips, to the front of the arrays.
fn put_pair(
    places: &mut [Place],
    values: &mut [Value],
    grad: &mut [f64],
    slip: &mut [f64],
    m: Mechanism,
    q: Pose,
    margin: f64,
    i: usize,
) -> usize
    requires { (check_of m ≡ Ok tt) × (i < m.pairs.count) × Room m.bodies.coords 0 (pair_bound m i) (lists_in places.old values.old grad.old slip.old) }
    ensures { Put m.bodies.coords (map place_row (rows_of_pair m q margin i)) (map value_row (rows_of_pair m q margin i))
        (grads_of_pair m q margin i) (slips_of_pair m q margin i) 0 result
        (lists_in places.old values.old grad.old slip.old) (lists_in places.new values.new grad.new slip.new) }
{
    let mut candidates = [blank_candidate(); 784];
    let p = m.pairs.pair[i];
    let s = Source {
        pair: i,
        a: body_of_side(m.parts, p.a),
        b: body_of_side(m.parts, p.b),
    };
    let n = pair_candidates(&mut candidates, m.parts, m.outlines, q, p);
    let mut rows = LentRows {
        places,
        values,
        grad,
        slip,
    };
    put_shown(&mut rows, 0, s, &candidates[..n], margin, m.bodies, q)
}

// The first n rows of numbers as records.
fn records_from(places: &[Place], values: &[Value], n: usize) -> PairRecords
    requires { (n ≤ length places.now) × (n ≤ length values.now) × (n ≤ 784) }
    ensures { (result.count ≡ n) × (held_in result ≡ records_in places.now values.now n) }
{
    let none = Row::from(([0; 7], [0.0; 5]));
    let mut row = [none; 784];
    for i in 0..n {
        row[i] = Row::from((places[i], values[i]));
    }
    PairRecords { row, count: n }
}

// The records of pair i; writes their gradients and slips, as those of the rows from `at` on.
fn pair_records(
    grad: &mut [f64],
    slip: &mut [f64],
    at: usize,
    m: Mechanism,
    q: Pose,
    margin: f64,
    i: usize,
) -> PairRecords
    requires { PairRoom m i at (length grad.old) (length slip.old) }
    ensures { PairRead m q margin i at result grad.old grad.new slip.old slip.new }
{
    let mut places = [[0; 7]; 784];
    let mut values = [[0.0; 5]; 784];
    let start = at * m.bodies.coords;
    let n = put_pair(
        &mut places,
        &mut values,
        &mut grad[start..],
        &mut slip[start..],
        m,
        q,
        margin,
        i,
    );
    records_from(&places, &values, n)
}

// ---- all pairs, as records

// Writes records behind the `at` that are there, and answers how many are there then.
fn put_records(out: &mut [Row], at: usize, p: PairRecords) -> usize
    requires { (p.count ≤ 784) × (at + p.count ≤ length out.old) }
    ensures { (result ≡ at + p.count) × (out.new ≡ sets out.old at (held_in p)) }
{
    for k in 0..p.count {
        out[at + k] = p.row[k];
    }
    at + p.count
}

// Writes the rows of all pairs, where the call is not refused.
fn put_pairs(
    m: Mechanism,
    q: Pose,
    margin: f64,
    out: &mut [Row],
    grad: &mut [f64],
    slip: &mut [f64],
) -> usize
    requires { records_checked m q (length out.old) (length grad.old) (length slip.old) ≡ Ok tt }
    ensures { (result ≡ length (rows_first m q margin m.pairs.count))
        × (out.new ≡ sets out.old 0 (rows_first m q margin m.pairs.count))
        × (grad.new ≡ sets grad.old 0 (grads_first m q margin m.pairs.count))
        × (slip.new ≡ sets slip.old 0 (slips_first m q margin m.pairs.count)) }
{
    let mut at = 0;
    for i in 0..m.pairs.count {
        let p = pair_records(grad, slip, at, m, q, margin, i);
        at = put_records(out, at, p);
    }
    at
}

// Writes the rows of every pair whose gap is not above the margin, with their gradients and slips, one float a coordinate each; everything past the last row stays.
pub fn rows(
    m: Mechanism,
    q: Pose,
    margin: f64,
    out: &mut [Row],
    grad: &mut [f64],
    slip: &mut [f64],
) -> Result<usize, Problem>
    ensures value { result ≡ answer_if (records_checked m q (length out.old) (length grad.old) (length slip.old)) (length (rows_of m q margin)) }
    ensures out_after { out.new ≡ if_accepted (records_checked m q (length out.old) (length grad.old) (length slip.old)) (sets out.old 0 (rows_of m q margin)) out.old }
    ensures grad_after { grad.new ≡ if_accepted (records_checked m q (length out.old) (length grad.old) (length slip.old)) (sets grad.old 0 (grads_of m q margin)) grad.old }
    ensures slip_after { slip.new ≡ if_accepted (records_checked m q (length out.old) (length grad.old) (length slip.old)) (sets slip.old 0 (slips_of m q margin)) slip.old }
{
    let room = out.len();
    rows_checked(m, q, room, room, grad.len(), slip.len())?;
    Ok(put_pairs(m, q, margin, out, grad, slip))
}

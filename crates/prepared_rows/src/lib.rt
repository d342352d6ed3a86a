// The rows of all pairs over a prepared description.
#![tactic(auto)]

ghost use Rattle.std.specs.Prelude.{◌≡◌, ◌≤◌, length};
ghost use Rattle.laws.specs.Loops.{any_in};
ghost use Rattle.mechanism.specs.Rows.{lists_of};
ghost use Rattle.strips.specs.Strips.{table_rows};
ghost use Rattle.pair_rows.specs.PairRows.{Room, SameArrays};
ghost use Rattle.shown_rows.specs.Rows.{answer_if, rows_over};
ghost use Rattle.prepared_rows.specs.Prepared.{all_rows, bounds_in, falls_off, prepared_asked, prepared_lists, bound_of, PairRoom, PutPair, PutPairs};

use bodies::check::bodies_stand;
use bodies::pose::Pose;
use bodies::{Bodies, Problem};
use candidates::prepared::{pair_bound_in, pair_candidates_in};
use mechanism::rows::LentRows;
use pair_rows::{Source, put_shown};
use proximities::{Candidate, blank_candidate};
use strips::tables::Tables;
use strips::{row_a, row_b};

// What rows are asked of: bodies and a prepared description, at a pose, up to a margin.
#[derive(Clone, Copy)]
struct Asked<'a> {
    bodies: &'a Bodies,
    tables: &'a Tables<'a>,
    q: Pose,
    margin: f64,
}

// ---- the rows of a pair

// Writes the rows of pair i behind the `at` rows that are there, its candidates standing in a lent array.
fn put_pair_by(
    candidates: &mut [Candidate],
    rows: &mut LentRows,
    at: usize,
    asked: &Asked,
    i: usize,
) -> usize
    requires { (bound_of asked.now i ≤ 1456) × (bound_of asked.now i ≤ length candidates.old) × PairRoom asked.now i at (lists_of rows.old) }
    ensures written { PutPair asked.now i at result (lists_of rows.old) (lists_of rows.new) }
    ensures same { SameArrays rows.old rows.new }
{
    let s = Source {
        pair: i,
        a: asked.tables.facts(row_a(i)).body,
        b: asked.tables.facts(row_b(i)).body,
    };
    let n = pair_candidates_in(candidates, asked.tables, asked.q, i);
    put_shown(
        rows,
        at,
        s,
        &candidates[..n],
        asked.margin,
        *asked.bodies,
        asked.q,
    )
}

// The same with room for N candidates of its own.
fn put_pair_with<const N: usize>(rows: &mut LentRows, at: usize, asked: &Asked, i: usize) -> usize
    requires { (bound_of asked.now i ≤ N) × (N ≤ 1456) × PairRoom asked.now i at (lists_of rows.old) }
    ensures written { PutPair asked.now i at result (lists_of rows.old) (lists_of rows.new) }
    ensures same { SameArrays rows.old rows.new }
{
    let mut candidates = [blank_candidate(); N];
    put_pair_by(&mut candidates, rows, at, asked, i)
}

// With as much room as the pair's bound asks for. Each room is a call of its own: a function pays for all its arrays when it is entered.
fn put_pair(rows: &mut LentRows, at: usize, asked: &Asked, i: usize) -> usize
    requires { PairRoom asked.now i at (lists_of rows.old) }
    ensures written { PutPair asked.now i at result (lists_of rows.old) (lists_of rows.new) }
    ensures same { SameArrays rows.old rows.new }
{
    let n = pair_bound_in(asked.tables, i);
    if n <= 32 {
        return put_pair_with::<32>(rows, at, asked, i);
    }
    if n <= 256 {
        return put_pair_with::<256>(rows, at, asked, i);
    }
    put_pair_with::<1456>(rows, at, asked, i)
}

// ---- all pairs

// Writes the rows of the first n pairs.
fn put_pairs(rows: &mut LentRows, asked: &Asked, n: usize) -> usize
    requires { (asked.now.bodies.now.coords ≤ 16) × (n ≤ 16) × (bounds_in (table_rows asked.now.tables.now) n ≤ 23296)
        × Room asked.now.bodies.now.coords 0 (bounds_in (table_rows asked.now.tables.now) n) (lists_of rows.old) }
    ensures written { PutPairs asked.now n result (lists_of rows.old) (lists_of rows.new) }
    ensures same { SameArrays rows.old rows.new }
{
    let mut at = 0;
    for pair in 0..n {
        at = put_pair(rows, at, asked, pair);
    }
    at
}

// ---- refusals

// Whether a side of one of the first n pairs names no body.
#[tactic(auto, using(bodies::proofs::Turns::any_turns))]
fn falls_off(bodies: usize, t: &Tables, n: usize) -> bool
    ensures { result ≡ any_in (falls_off bodies (table_rows t.now)) n 0 }
{
    for i in 0..n {
        if (bodies < t.facts(row_a(i)).body) | (bodies < t.facts(row_b(i)).body) {
            return true;
        }
    }
    false
}

// The sum of the bounds of the first n pairs.
fn bounds_in(t: &Tables, n: usize) -> usize
    requires { n ≤ 16 }
    ensures { (result ≡ bounds_in (table_rows t.now) n) × (result ≤ 23296) }
{
    let mut sum = 0;
    for i in 0..n {
        sum += pair_bound_in(t, i);
    }
    sum
}

// Writes the rows of the first n pairs whose gap is not above the margin, with their gradients and slips; everything past the last row stays.
pub fn rows_in(
    bodies: Bodies,
    t: &Tables,
    n: usize,
    q: Pose,
    margin: f64,
    rows: &mut LentRows,
) -> Result<usize, Problem>
    ensures value { result ≡ answer_if (prepared_asked bodies n (table_rows t.now) q (lists_of rows.old)) (length (all_rows (table_rows t.now) q margin n)) }
    ensures after { lists_of rows.new ≡ rows_over (prepared_asked bodies n (table_rows t.now) q (lists_of rows.old)) (prepared_lists (table_rows t.now) bodies q margin n) (lists_of rows.old) }
    ensures same { SameArrays rows.old rows.new }
{
    if 16 < n {
        return Err(Problem::LimitPassed);
    }
    bodies_stand(bodies)?;
    if q.count != bodies.count + 1 {
        return Err(Problem::PoseNotMatching);
    }
    if falls_off(bodies.count, t, n) {
        return Err(Problem::NoSuchThing);
    }
    let bound = bounds_in(t, n);
    let columns = bound * bodies.coords;
    if ((bound <= rows.places.len()) & (bound <= rows.values.len()))
        & ((columns <= rows.grad.len()) & (columns <= rows.slip.len()))
    {
        let asked = Asked {
            bodies: &bodies,
            tables: t,
            q,
            margin,
        };
        return Ok(put_pairs(rows, &asked, n));
    }
    Err(Problem::TooFewRows)
}

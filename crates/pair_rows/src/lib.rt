// The rows shown of a pair's candidates (contact/rows.rs: hiding, margin, `push`), with their gradients and slips, into lent arrays.
#![tactic(auto)]

ghost use Rattle.std.specs.Prelude.{◌≡◌, cond, [], ◌+◌, ◌*◌, ◌<◌, ◌≤◌, length, take, drop, replicate, Float};
ghost use Rattle.std.proofs.lemmas.List.Edits.{sets};
ghost use Rattle.laws.specs.Lists.{foldl};
ghost use Rattle.laws.specs.Loops.{any_in};
ghost use Rattle.ieee.specs.Consts.{zero_f};
ghost use Rattle.mechanism.specs.Rows.{lists_of};
ghost use Rattle.showing.specs.Showing.{hides, hidden, shows, within};
ghost use Rattle.pair_rows.specs.PairRows.{candidate_at, gap_at, decides_at, deciding, alike, alike_at, shown_of, outdoes_by, add_into, sub_from, changed_by, grad_in, slip_in};
ghost use Rattle.pair_rows.specs.PairRows.{with_row, SameArrays, Room, room_behind, PutShown};

use bodies::Bodies;
use bodies::pose::{Columns, Pose, columns_at};
use geometry::Point;
use ieee::num::is_nan;
use mechanism::features::{Piece, letter, part, seg};
use mechanism::rows::LentRows;
use proximities::Candidate;

// ---- hiding

// Candidate number i.
#[tactic(auto, using(std::proofs::lemmas::List::get_or_default))]
fn candidate(candidates: &[Candidate], i: usize) -> &Candidate
    requires { i < length candidates.now }
    ensures { result.now ≡ candidate_at candidates.now i }
{
    &candidates[i]
}

// The piece that decides, where one of the two does.
fn deciding(c: &Candidate) -> Piece
    ensures { result ≡ deciding c.now }
{
    if c.who == 1 { c.a } else { c.b }
}

// Whether two candidates have one deciding piece.
#[tactic(auto, using(mechanism::proofs::SamePiece::equal_pieces))]
fn are_alike(c: &Candidate, d: &Candidate) -> bool
    ensures { result ≡ alike c.now d.now }
{
    (c.who != 0 && d.who != 0) && deciding(c) == deciding(d)
}

// Whether a candidate with the gap y, number j, hides one with the gap x, number i, of the same piece.
fn outdoes(x: f64, i: usize, y: f64, j: usize) -> bool
    ensures { result ≡ outdoes_by x i y j }
{
    y < 0.0 && (x < y || (x == y && j < i))
}

// Whether a candidate hides number i.
#[tactic(auto, using(bodies::proofs::Turns::any_turns))]
fn is_beaten(candidates: &[Candidate], i: usize) -> bool
    requires { i < length candidates.now }
    ensures { result ≡ any_in (hides (gap_at candidates.now) (decides_at candidates.now) (alike_at candidates.now) i) (length candidates.now) 0 }
{
    let x = candidate(candidates, i);
    for j in 0..candidates.len() {
        let y = candidate(candidates, j);
        if are_alike(y, x) && outdoes(x.near.gap, i, y.near.gap, j) {
            return true;
        }
    }
    false
}

fn is_hidden(candidates: &[Candidate], i: usize) -> bool
    requires { i < length candidates.now }
    ensures { result ≡ hidden (gap_at candidates.now) (decides_at candidates.now) (alike_at candidates.now) (length candidates.now) i }
{
    let c = candidate(candidates, i);
    c.who != 0 && c.near.gap < -0.001 && is_beaten(candidates, i)
}

// Whether a gap is a number and not above the margin.
fn is_within(margin: f64, gap: f64) -> bool
    ensures { result ≡ within margin gap }
{
    !is_nan(gap) && !(margin < gap)
}

fn is_shown(candidates: &[Candidate], margin: f64, i: usize) -> bool
    requires { i < length candidates.now }
    ensures { result ≡ shows (gap_at candidates.now) (decides_at candidates.now) (alike_at candidates.now) (length candidates.now) margin i }
{
    !is_hidden(candidates, i) && is_within(margin, candidate(candidates, i).near.gap)
}

// ---- gradients and slips

// Writes n zeros from `at` on.
#[tactic(auto, using(crate::proofs::Store::sets_one_more))]
fn put_zeros(out: &mut [f64], at: usize, n: usize)
    requires { at + n ≤ length out.old }
    ensures { out.new ≡ sets out.old at (replicate n zero_f) }
{
    for i in 0..n {
        out[at + i] = 0.0;
    }
}

// Takes in the columns along v, each at its coordinate, where that is one of the n: `change` of what stands there and of what the column is along v.
fn put_sums<F: Fn(f64, f64) -> f64>(
    out: &mut [f64],
    at: usize,
    n: usize,
    v: Point,
    k: Columns,
    change: F,
)
    requires { (at + n ≤ length out.old) × (k.count ≤ 15) × ((x y : Float) → F.pre change x y) }
    ensures { (f : Float → Float → Float) → ((x y r : Float) → F.post change x y r → r ≡ f x y)
        → out.new ≡ sets out.old at (foldl (changed_by f v) (take n (drop at out.old)) (take k.count k.column)) }
{
    for c in &k.column[..k.count] {
        if c.coord < n {
            let to = at + c.coord;
            out[to] = change(out[to], v.x * c.column.x + v.y * c.column.y);
        }
    }
}

// The columns of body A's chain along v less those of body B's, from `at` on.
fn put_along(out: &mut [f64], at: usize, coords: usize, v: Point, ka: Columns, kb: Columns)
    requires { (at + coords ≤ length out.old) × (ka.count ≤ 15) × (kb.count ≤ 15) }
    ensures { out.new ≡ sets out.old at (foldl (sub_from v) (foldl (add_into v) (replicate coords zero_f) (take ka.count ka.column)) (take kb.count kb.column)) }
{
    put_zeros(out, at, coords);
    put_sums(out, at, coords, v, ka, |x, y| x + y);
    put_sums(out, at, coords, v, kb, |x, y| x - y);
}

// ---- the rows of a pair

// Where the rows of a pair come from: its number and its two bodies.
#[derive(Clone, Copy)]
pub struct Source {
    pub pair: usize,
    pub a: usize,
    pub b: usize,
}

// Writes a candidate's gradient and slip, as those of row number `at`.
fn put_columns(
    grad: &mut [f64],
    slip: &mut [f64],
    at: usize,
    s: Source,
    c: Candidate,
    bodies: Bodies,
    q: Pose,
)
    requires { ((at + 1) * bodies.coords ≤ length grad.old) × ((at + 1) * bodies.coords ≤ length slip.old) }
    ensures { (grad.new ≡ sets grad.old (at * bodies.coords) (grad_in bodies q s c)) × (slip.new ≡ sets slip.old (at * bodies.coords) (slip_in bodies q s c)) }
{
    let coords = bodies.coords;
    let ka = columns_at(bodies, q, s.a, c.near.point);
    let kb = columns_at(bodies, q, s.b, c.near.point);
    let n = c.near.normal.vector();
    put_along(grad, at * coords, coords, n, ka, kb);
    let t = Point { x: -n.y, y: n.x };
    put_along(slip, at * coords, coords, t, ka, kb);
}

// Writes the row of a candidate as row number `at`.
fn put_row(rows: &mut LentRows, at: usize, s: Source, c: Candidate, bodies: Bodies, q: Pose)
    requires { Room bodies.coords at 1 (lists_of rows.old) }
    ensures written { lists_of rows.new ≡ with_row bodies q s c at (lists_of rows.old) }
    ensures same { SameArrays rows.old rows.new }
{
    let place = [
        s.pair,
        letter(c.a),
        part(c.a),
        seg(c.a),
        letter(c.b),
        part(c.b),
        seg(c.b),
    ];
    let near = c.near;
    rows.places[at] = place;
    rows.values[at] = [
        near.gap,
        near.normal.x,
        near.normal.y,
        near.point.x,
        near.point.y,
    ];
    put_columns(rows.grad, rows.slip, at, s, c, bodies, q);
}

// Writes the rows of the candidates that are shown behind the `at` rows that are there, where there is room for all.
fn put_there(
    rows: &mut LentRows,
    at: usize,
    s: Source,
    candidates: &[Candidate],
    margin: f64,
    bodies: Bodies,
    q: Pose,
) -> usize
    requires { Room bodies.coords at (length candidates.now) (lists_of rows.old) }
    ensures written { PutShown bodies q s candidates.now (shown_of candidates.now margin) at result (lists_of rows.old) (lists_of rows.new) }
    ensures same { SameArrays rows.old rows.new }
{
    let mut to = at;
    for i in 0..candidates.len() {
        if is_shown(candidates, margin, i) {
            put_row(rows, to, s, *candidate(candidates, i), bodies, q);
            to += 1;
        }
    }
    to
}

// Writes the rows of the candidates that are shown behind the `at` rows that are there; nothing where the arrays are too short for all candidates, or a number is above its limit.
pub fn put_shown(
    rows: &mut LentRows,
    at: usize,
    s: Source,
    candidates: &[Candidate],
    margin: f64,
    bodies: Bodies,
    q: Pose,
) -> usize
    ensures written { PutShown bodies q s candidates.now
        (cond (room_behind bodies.coords at (length candidates.now) (lists_of rows.old)) (shown_of candidates.now margin) [])
        at result (lists_of rows.old) (lists_of rows.new) }
    ensures same { SameArrays rows.old rows.new }
{
    let n = candidates.len();
    let coords = bodies.coords;
    if (coords <= 16) & ((at <= 23296) & (n <= 1456)) {
        let end = at + n;
        let columns = end * coords;
        if ((end <= rows.places.len()) & (end <= rows.values.len()))
            & ((columns <= rows.grad.len()) & (columns <= rows.slip.len()))
        {
            return put_there(rows, at, s, candidates, margin, bodies, q);
        }
    }
    at
}

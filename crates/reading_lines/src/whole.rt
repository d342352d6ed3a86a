// The lines of a whole reading, or of a refusal, from the front of an array that has room for any listing.
ghost use Rattle.std.specs.Prelude.{◌<◌, ◌≤◌};
ghost use Rattle.mechanism.specs.Rows.{lists_of};
ghost use Rattle.reading_lines.specs.Lines.{Room, Wrote};
ghost use Rattle.reading_lines.specs.Readings.{Held, row_lines_in, pair_rows_in, other_lines, all_lines_in, refusal, read_lines};

use super::lines::{bearing_line, columns_line, overlap_line, refusal_line, row_line};
use bodies::pose::Pose;
use bodies::{Bodies, Problem};
use mechanism::Mechanism;
use mechanism::bearing::Bearing;
use mechanism::rows::{LentRows, Row};
use reading::{PairReading, Reading, read};

// Room for any listing.
pub type Listed = [u8; 192352];

// Row j and its columns, `coords` numbers each.
fn row_lines(out: &mut [u8], at: usize, rows: &LentRows, coords: usize, n: usize, j: usize) -> usize
    requires { Held coords n (lists_of rows.now) × (j < n) × Room out.old at (row_lines_in coords (lists_of rows.now) j) }
    ensures { Wrote out.old at (row_lines_in coords (lists_of rows.now) j) result out.new }
{
    let r = Row::from((rows.places[j], rows.values[j]));
    let k = row_line(out, at, r);
    let from = j * coords;
    let to = from + coords;
    columns_line(out, k, &rows.grad[from..to], &rows.slip[from..to])
}

// Those of the n rows that name pair i.
fn pair_rows(out: &mut [u8], at: usize, rows: &LentRows, coords: usize, n: usize, i: usize) -> usize
    requires { Held coords n (lists_of rows.now) × Room out.old at (pair_rows_in coords (lists_of rows.now) n i) }
    ensures { Wrote out.old at (pair_rows_in coords (lists_of rows.now) n i) result out.new }
{
    let mut k = at;
    for j in 0..n {
        if rows.places[j][0] == i {
            k = row_lines(out, k, rows, coords, n, j);
        }
    }
    k
}

// The overlaps and the bearing of pair i.
#[tactic(auto, using(crate::proofs::LineLaws::writing))]
fn other_lines(out: &mut [u8], at: usize, i: usize, x: PairReading) -> usize
    requires { Room out.old at (other_lines i x) }
    ensures { Wrote out.old at (other_lines i x) result out.new }
{
    let k = overlap_line(out, at, i, x.overlap, x.face_overlap);
    bearing_line(out, k, i, x.bearing)
}

// Pair by pair.
fn all_lines(out: &mut [u8], rows: &LentRows, coords: usize, r: Reading) -> usize
    requires { Held coords r.count (lists_of rows.now) × (r.pairs ≤ 16) × Room out.old 0 (all_lines_in coords (lists_of rows.now) r) }
    ensures { Wrote out.old 0 (all_lines_in coords (lists_of rows.now) r) result out.new }
{
    let mut k: usize = 0;
    for i in 0..r.pairs {
        let to = pair_rows(out, k, rows, coords, r.count, i);
        k = other_lines(out, to, i, r.pair[i]);
    }
    k
}

// The line of a refusal; everything behind it stays.
pub fn refused(out: &mut Listed, p: Problem) -> usize
    ensures { Wrote out.old 0 (refusal p) result out.new }
{
    refusal_line(out, 0, p.number(), p.place())
}

// The readings of a description at a pose, with 256 rows lent; everything behind them stays.
pub fn read_lines(out: &mut Listed, m: Mechanism, q: Pose, margin: f64) -> usize
    ensures { Wrote out.old 0 (read_lines m q margin) result out.new }
{
    let mut places = [[0usize; 7]; 256];
    let mut values = [[0.0; 5]; 256];
    let mut grad = [0.0; 4096];
    let mut slip = [0.0; 4096];
    let mut rows = LentRows {
        places: &mut places,
        values: &mut values,
        grad: &mut grad,
        slip: &mut slip,
    };
    match read(m, q, margin, &mut rows) {
        Ok(r) => all_lines(out, &rows, m.bodies.coords, r),
        Err(p) => refused(out, p),
    }
}

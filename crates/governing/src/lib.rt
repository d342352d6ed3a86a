// The governing row of a pair (contact/rows.rs: `governing`, `gap`), and one row's gradient or slip by its number (`grad`, `slip`), of rows in lent arrays.
#![tactic(auto)]

ghost use Rattle.std.specs.Prelude.{◌≡◌, length};
ghost use Rattle.mechanism.specs.Rows.{pair_in, gap_in};
ghost use Rattle.governing.specs.Governing.{gap_of, lesser_gap, least_gap, row_of_best, gap_of_best, lesser, records_in, governing_in, row_there, row_entries};

use bodies::Problem;
use mechanism::rows::ReadRows;

// The smallest gap so far, with its row's number.
#[derive(Clone, Copy)]
pub struct Smallest {
    pub at: usize,
    pub gap: f64,
}

// The gradient or slip of one row, one entry a coordinate.
#[derive(Clone, Copy)]
pub struct RowEntries {
    pub count: usize,
    pub entry: [f64; 16],
}

// The smaller of two numbers.
pub fn least(a: usize, b: usize) -> usize
    ensures { result ≡ lesser a b }
{
    if a < b { a } else { b }
}

// ---- the core: gap by gap

// One gap more: the first, then only a strictly smaller one; a NaN that came first stays.
pub fn lesser_gap(best: Option<Smallest>, at: usize, gap: f64) -> Option<Smallest>
    ensures { result ≡ lesser_gap best at gap }
{
    match best {
        Some(b) if !(gap < b.gap) => best,
        _ => Some(Smallest { at, gap }),
    }
}

// Gap by gap, as far as both slices go.
pub fn least_gap(best: Option<Smallest>, numbers: &[usize], gaps: &[f64]) -> Option<Smallest>
    ensures { result ≡ least_gap best numbers.now gaps.now }
{
    let mut b = best;
    for k in 0..least(numbers.len(), gaps.len()) {
        b = lesser_gap(b, numbers[k], gaps[k]);
    }
    b
}

// Its row.
pub fn row_of_best(best: Option<Smallest>) -> Option<usize>
    ensures { result ≡ row_of_best best }
{
    Some(best?.at)
}

// The gap by itself.
pub fn gap_of_best(best: Option<Smallest>) -> Option<f64>
    ensures { result ≡ gap_of_best best }
{
    Some(best?.gap)
}

// ---- of rows in lent arrays

// How many of the first rows there are.
pub fn records_in(rows: &ReadRows) -> usize
    ensures { result ≡ records_in rows.now.count (length rows.now.places.now) (length rows.now.values.now) }
{
    least(rows.count, least(rows.places.len(), rows.values.len()))
}

// The smallest gap of a pair's rows.
fn walked(rows: &ReadRows, pair: usize) -> Option<Smallest>
    ensures row { row_of_best result ≡ governing_in rows.now.places.now rows.now.values.now rows.now.count pair }
    ensures gap { gap_of_best result ≡ gap_of (pair_in rows.now.places.now) (gap_in rows.now.values.now) (governing_in rows.now.places.now rows.now.values.now rows.now.count pair) }
{
    let n = records_in(rows);
    let mut best = None;
    for i in 0..n {
        if rows.places[i][0] == pair {
            best = lesser_gap(best, i, rows.values[i][0]);
        }
    }
    best
}

// The governing row of a pair among the rows: the first of its smallest gap.
pub fn governing_in(rows: &ReadRows, pair: usize) -> Option<usize>
    ensures { result ≡ governing_in rows.now.places.now rows.now.values.now rows.now.count pair }
{
    row_of_best(walked(rows, pair))
}

// Its gap.
pub fn gap_in(rows: &ReadRows, pair: usize) -> Option<f64>
    ensures { result ≡ gap_of (pair_in rows.now.places.now) (gap_in rows.now.values.now) (governing_in rows.now.places.now rows.now.values.now rows.now.count pair) }
{
    gap_of_best(walked(rows, pair))
}

// ---- one row's entries

// Whether row i of n rows stands among so many entries, `coords` of them a row.
fn row_there(entries: usize, coords: usize, n: usize, i: usize) -> bool
    ensures { result ≡ row_there entries coords n i }
{
    if coords == 0 {
        return i < n;
    }
    if 16 < coords {
        return false;
    }
    (i < n) & (i < entries / coords)
}

// The gradient of row i, or its slip, out of those of n rows.
pub fn row_entries(
    entries: &[f64],
    coords: usize,
    n: usize,
    i: usize,
) -> Result<RowEntries, Problem>
    ensures { result ≡ row_entries entries.now coords n i }
{
    if !row_there(entries.len(), coords, n, i) {
        return Err(Problem::NoSuchThing);
    }
    let at = i * coords;
    let mut entry = [0.0; 16];
    for k in 0..coords {
        entry[k] = entries[at + k];
    }
    Ok(RowEntries {
        count: coords,
        entry,
    })
}

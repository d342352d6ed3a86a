// The whole reading of a description at a pose, after one check: its rows, and of every pair the overlaps and the bearing.
#![tactic(auto)]

ghost use Rattle.std.specs.Prelude.{◌≡◌, ℕ, ◌<◌, ◌≤◌, length};
ghost use Rattle.mechanism.specs.Check.{check_of};
ghost use Rattle.mechanism.specs.Rows.{lists_of};
ghost use Rattle.pair_rows.specs.PairRows.{SameArrays};
ghost use Rattle.shown_rows.specs.Rows.{rows_asked, shown_lists, rows_over};
ghost use Rattle.governing.specs.Governing.{records_in};
ghost use Rattle.reading.specs.declared.PairReading.{PairReading};
ghost use Rattle.reading.specs.Reading.{pair_reading, pair_readings, readings_by, no_pair_reading, reading_asked};

pub mod prepared;

use bearings::governed;
use bodies::Problem;
use bodies::pose::Pose;
use faces::sides_overlap;
use mechanism::Mechanism;
use mechanism::bearing::Bearing;
use mechanism::rows::{LentRows, ReadRows};
use overlap::pair_overlap_at;
use shown_rows::rows_in_numbers;
use sides::contacts::pair_features_at;

// What is read of one pair beside its rows.
#[derive(Clone, Copy)]
pub struct PairReading {
    pub overlap: f64,
    pub face_overlap: f64,
    pub bearing: Option<Bearing>,
}

// How many rows were written, and what is read of each of the first `pairs` pairs.
#[derive(Clone, Copy)]
pub struct Reading {
    pub count: usize,
    pub pairs: usize,
    pub pair: [PairReading; 16],
}

fn no_pair() -> PairReading
    ensures { result ≡ no_pair_reading }
{
    PairReading {
        overlap: 0.0,
        face_overlap: 0.0,
        bearing: None,
    }
}

// Pair i of an accepted description by the first n rows.
fn read_pair(m: &Mechanism, q: Pose, rows: &ReadRows, i: usize) -> PairReading
    requires { (check_of m.now ≡ Ok tt) × (i < m.now.pairs.count) }
    ensures { result ≡ pair_reading m.now q rows.now.places.now rows.now.values.now (records_in rows.now.count (length rows.now.places.now) (length rows.now.values.now)) i }
{
    let ps = m.parts;
    let o = m.outlines;
    let p = m.pairs.pair[i];
    let f = pair_features_at(ps, o, p);
    PairReading {
        overlap: pair_overlap_at(ps, o, q, p),
        face_overlap: sides_overlap(f, q),
        bearing: governed(f, q, rows, i),
    }
}

// Every pair, one by one, by n rows.
fn read_pairs<F: Fn(usize) -> PairReading>(pairs: usize, n: usize, read_pair: F) -> Reading
    requires few { pairs ≤ 16 }
    requires one { (i : ℕ) → i < pairs → F.pre read_pair i }
    ensures { (one : ℕ → PairReading) → ((i : ℕ) (r : PairReading) → i < pairs → F.post read_pair i r → r ≡ one i) → result ≡ record { count = n; pairs = pairs; pair = readings_by one pairs } }
{
    let mut pair = [no_pair(); 16];
    for i in 0..pairs {
        pair[i] = read_pair(i);
    }
    Reading {
        count: n,
        pairs,
        pair,
    }
}

// Every pair of an accepted description by the n rows that are there.
fn read_by(m: &Mechanism, q: Pose, rows: &LentRows, n: usize) -> Reading
    requires { (check_of m.now ≡ Ok tt) × (n ≤ length (lists_of rows.now).places) × (n ≤ length (lists_of rows.now).values) }
    ensures { result ≡ record { count = n; pairs = m.now.pairs.count; pair = pair_readings m.now q (lists_of rows.now).places (lists_of rows.now).values n } }
{
    let read = ReadRows {
        places: rows.places,
        values: rows.values,
        count: n,
    };
    read_pairs(m.pairs.count, n, |i| read_pair(m, q, &read, i))
}

// Writes the rows of every pair whose gap is not above the margin, with their gradients and slips, as `rows_in_numbers` does, and reads the overlaps and the bearing of every pair.
#[tactic(auto, unfolding(crate::specs::Reading::reading_of))]
pub fn read(m: Mechanism, q: Pose, margin: f64, rows: &mut LentRows) -> Result<Reading, Problem>
    ensures value { result ≡ reading_asked m q margin (lists_of rows.old) }
    ensures after { lists_of rows.new ≡ rows_over (rows_asked m q (lists_of rows.old)) (shown_lists m q margin) (lists_of rows.old) }
    ensures same { SameArrays rows.old rows.new }
{
    let n = rows_in_numbers(m, q, margin, rows)?;
    Ok(read_by(&m, q, rows, n))
}

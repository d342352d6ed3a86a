// The governing row of a pair among row records (contact/rows.rs: `governing`, `gap`), the bearing by it (contact/bearing.rs), and rows in lent arrays as records.
#![tactic(auto)]

ghost use Rattle.std.specs.Prelude.{◌≡◌, ◌<◌, ◌≤◌, length};
ghost use Rattle.std.proofs.lemmas.List.Edits.{sets};
ghost use Rattle.mechanism.specs.Description.{pair_at};
ghost use Rattle.bearings.specs.Bearing.{bearing_from, row_at};
ghost use Rattle.governing.specs.Governing.{records_in};
ghost use Rattle.row_records.specs.Records.{governing_record, gap_record, bearing_record, records_of, records_fit};
ghost use Rattle.row_records.specs.Private.{found_of, bearing_at, bearing_found};

use bearings::{bearing_of, governed};
use bodies::Problem;
use bodies::pose::Pose;
use governing::{least, records_in};
use mechanism::bearing::Bearing;
use mechanism::check::call_checked;
use mechanism::pair::ContactPair;
use mechanism::rows::{ReadRows, Row};
use mechanism::{Mechanism, Outlines, Pairs, Parts};
use sides::contacts::{PairFeatures, pair_features_at};

// ---- the governing record

// The record that governs, and its number.
#[derive(Clone, Copy)]
struct Found {
    at: usize,
    row: Row,
}

// The governing record of a pair: the first of its smallest gap.
#[tactic(auto, using(crate::proofs::Laws::found_more))]
fn best_of(rows: &[Row], pair: usize) -> Option<Found>
    ensures { result ≡ found_of rows.now pair (length rows.now) }
{
    let mut best: Option<Found> = None;
    for (at, row) in rows.iter().enumerate() {
        if row.pair == pair && best.is_none_or(|b| row.gap < b.row.gap) {
            best = Some(Found { at, row: *row });
        }
    }
    best
}

// The governing row of a pair.
pub fn governing(rows: &[Row], pair: usize) -> Option<usize>
    ensures { result ≡ governing_record rows.now pair }
{
    Some(best_of(rows, pair)?.at)
}

// Its gap.
pub fn gap(rows: &[Row], pair: usize) -> Option<f64>
    ensures { result ≡ gap_record rows.now pair }
{
    Some(best_of(rows, pair)?.row.gap)
}

// ---- the bearing

fn pair_at(pairs: Pairs, i: usize) -> ContactPair
    requires { i < 16 }
    ensures { result ≡ pair_at pairs i }
{
    pairs.pair[i]
}

fn bearing_at(f: PairFeatures, q: Pose, found: Option<Found>) -> Option<Bearing>
    ensures { result ≡ bearing_at f q found }
{
    bearing_of(f, q, found?.row)
}

// The bearing of a pair by the record found.
#[tactic(auto, unfolding(crate::specs::Private::bearing_found))]
fn bearing_found(
    m: Mechanism,
    q: Pose,
    found: Option<Found>,
    pair: usize,
) -> Result<Option<Bearing>, Problem>
    ensures { result ≡ bearing_found m q found pair }
{
    call_checked(m, q.fits(m.bodies), true, true)?;
    if pair < m.pairs.count {
        let f = pair_features_at(m.parts, m.outlines, pair_at(m.pairs, pair));
        return Ok(bearing_at(f, q, found));
    }
    Ok(None)
}

// How side A of a pair bears on side B, by the pair's governing record.
pub fn bearing(m: Mechanism, q: Pose, rows: &[Row], pair: usize) -> Result<Option<Bearing>, Problem>
    ensures { result ≡ bearing_record m q rows.now pair }
{
    bearing_found(m, q, best_of(rows, pair), pair)
}

// ---- rows in lent arrays as records

fn put_records(out: &mut [Row], rows: &ReadRows, n: usize)
    requires { n ≤ length out.old }
    ensures { out.new ≡ sets out.old 0 (records_of rows.now.places.now rows.now.values.now n) }
{
    for i in 0..n {
        out[i] = rows.row(i);
    }
}

// Writes rows of lent arrays as records, as many as there are and have room; everything past them stays. Answers how many.
pub fn records(out: &mut [Row], rows: &ReadRows) -> usize
    ensures { let k = records_fit rows.now.count (length rows.now.places.now) (length rows.now.values.now) (length out.old) in (result ≡ k) × (out.new ≡ sets out.old 0 (records_of rows.now.places.now rows.now.values.now k)) }
{
    let k = least(records_in(rows), out.len());
    put_records(out, rows, k);
    k
}

// How side A of a pair bears on side B, by the pair's governing row.
pub fn bearing_in(
    m: Mechanism,
    q: Pose,
    rows: &ReadRows,
    pair: usize,
) -> Result<Option<Bearing>, Problem>
    ensures { result ≡ bearing_from m q (row_at rows.now.places.now rows.now.values.now) (records_in rows.now.count (length rows.now.places.now) (length rows.now.values.now)) pair }
{
    call_checked(m, q.fits(m.bodies), true, true)?;
    if pair < m.pairs.count {
        let f = pair_features_at(m.parts, m.outlines, pair_at(m.pairs, pair));
        return Ok(governed(f, q, rows, pair));
    }
    Ok(None)
}

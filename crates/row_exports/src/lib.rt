// Functions over rows for a caller in Rust or C, on plain numbers: for the comparison in oracle/.
// An exported function takes no enum, so that a row goes as its seven whole numbers and its five floats.
#![tactic(auto)]

ghost use Rattle.std.specs.Prelude.{◌≡◌, ◌≤◌, length, take, unwrap_or};
ghost use Rattle.mechanism.specs.Rows.{pair_in, gap_in, row_in};
ghost use Rattle.governing.specs.Governing.{governing_of, gap_of, records_in, row_entries};
ghost use Rattle.row_records.specs.Records.{governing_record, gap_record, records_of};
ghost use Rattle.sheet.specs.Read.{sheet_of};
ghost use Rattle.row_exports.specs.Numbers.{how_number, bearing_numbers, sheet_bearing, bearing_by, refused_by, entries_over, surfaces_of};

use bodies::Problem;
use governing::{gap_in, governing_in, records_in, row_entries};
use mechanism::bearing::{Bearing, HowItBears};
use mechanism::rows::{Place, ReadRows, Row, Value};

// The number of the governing row of a pair among the first n rows, or among those that there are; n where there is none.
#[unsafe(no_mangle)]
pub extern "C" fn sewqirun_governing(
    places: &[Place],
    values: &[Value],
    n: usize,
    pair: usize,
) -> usize
    ensures { result ≡ unwrap_or (governing_of (pair_in places.now) (gap_in values.now) (records_in n (length places.now) (length values.now)) pair) n }
{
    let rows = ReadRows {
        places,
        values,
        count: n,
    };
    governing_in(&rows, pair).unwrap_or(n)
}

// Its gap, or x where there is none.
#[unsafe(no_mangle)]
pub extern "C" fn sewqirun_gap(
    places: &[Place],
    values: &[Value],
    n: usize,
    pair: usize,
    x: f64,
) -> f64
    ensures { result ≡ unwrap_or (gap_of (pair_in places.now) (gap_in values.now)
        (governing_of (pair_in places.now) (gap_in values.now) (records_in n (length places.now) (length values.now)) pair)) x }
{
    let rows = ReadRows {
        places,
        values,
        count: n,
    };
    gap_in(&rows, pair).unwrap_or(x)
}

// ---- the same over records, in an array of the callee's own

// Records by value: the first n of them, n being said beside it.
#[derive(Clone, Copy)]
pub struct Records {
    row: [Row; 64],
}

// Rows of numbers as records, written by `row_records::records`.
fn records_by_value(rows: &ReadRows) -> Records
    requires { rows.now.count ≤ 64 }
    ensures { let n = records_in rows.now.count (length rows.now.places.now) (length rows.now.values.now) in take n result.row ≡ records_of rows.now.places.now rows.now.values.now n }
{
    let none = Row::from(([0; 7], [0.0; 5]));
    let mut row = [none; 64];
    row_records::records(&mut row, rows);
    Records { row }
}

// The governing one of the first n.
fn governing_of(h: Records, n: usize, pair: usize) -> Option<usize>
    requires { n ≤ 64 }
    ensures { result ≡ governing_record (take n h.row) pair }
{
    row_records::governing(&h.row[..n], pair)
}

// Its gap.
fn gap_of(h: Records, n: usize, pair: usize) -> Option<f64>
    requires { n ≤ 64 }
    ensures { result ≡ gap_record (take n h.row) pair }
{
    row_records::gap(&h.row[..n], pair)
}

// The number of the governing record of a pair among the first 64, 64 where there is none.
#[unsafe(no_mangle)]
pub extern "C" fn sewqirun_governing_record(
    places: &[Place],
    values: &[Value],
    pair: usize,
) -> usize
    ensures { result ≡ unwrap_or (governing_record (records_of places.now values.now (records_in 64 (length places.now) (length values.now))) pair) 64 }
{
    let rows = ReadRows {
        places,
        values,
        count: 64,
    };
    let h = records_by_value(&rows);
    governing_of(h, records_in(&rows), pair).unwrap_or(64)
}

// Its gap, x where there is none.
#[unsafe(no_mangle)]
pub extern "C" fn sewqirun_gap_record(
    places: &[Place],
    values: &[Value],
    pair: usize,
    x: f64,
) -> f64
    ensures { result ≡ unwrap_or (gap_record (records_of places.now values.now (records_in 64 (length places.now) (length values.now))) pair) x }
{
    let rows = ReadRows {
        places,
        values,
        count: 64,
    };
    let h = records_by_value(&rows);
    gap_of(h, records_in(&rows), pair).unwrap_or(x)
}

// ---- the bearing by records, of the sheet that a text says

// The bearing of a pair by the first n, at the pose of the sheet that a text says.
fn sheet_bearing(text: &[u8], h: Records, n: usize, pair: usize) -> Result<Option<Bearing>, Problem>
    requires { n ≤ 64 }
    ensures { result ≡ sheet_bearing (take n h.row) pair (sheet_of text.now) }
{
    let s = sheet::read(text)?;
    let q = sheet::posed::posed(s.mechanism, s.entries)?;
    row_records::bearing(s.mechanism, q, &h.row[..n], pair)
}

fn how_number(h: HowItBears) -> usize
    ensures { result ≡ how_number h }
{
    match h {
        HowItBears::Flat => 1,
        HowItBears::StopEdge => 2,
        HowItBears::KeyCorner => 3,
    }
}

// How it bears, 0 where it does not; the gap, x and y of the point, and the slope.
#[derive(Clone, Copy)]
pub struct BearingNumbers {
    how: usize,
    value: [f64; 4],
}

// A bearing as numbers, x for a slope that it does not have.
fn bearing_numbers(found: Option<Bearing>, x: f64) -> BearingNumbers
    ensures { result ≡ bearing_numbers found x }
{
    match found {
        Some(b) => {
            BearingNumbers {
                how: how_number(b.how),
                value: [b.gap, b.point.x, b.point.y, b.slope.unwrap_or(x)],
            }
        }
        None => BearingNumbers {
            how: 0,
            value: [0.0, 0.0, 0.0, 0.0],
        },
    }
}

// Writes the gap, the point and the slope of the bearing of a pair by the first 64 records, at the pose of the sheet that a text says, and answers how it bears.
#[tactic(auto, unfolding(crate::specs::Numbers::bearing_by, crate::specs::Numbers::bearing_found))]
#[unsafe(no_mangle)]
pub extern "C" fn sewqirun_bearing_record(
    out: &mut Surfaces,
    text: &[u8],
    places: &[Place],
    values: &[Value],
    pair: usize,
    x: f64,
) -> usize
    ensures { (result ≡ (bearing_by text.now places.now values.now pair x).how) × (out.new ≡ (bearing_by text.now places.now values.now pair x).value) }
{
    let rows = ReadRows {
        places,
        values,
        count: 64,
    };
    let h = records_by_value(&rows);
    let found = sheet_bearing(text, h, records_in(&rows), pair).unwrap_or(None);
    let k = bearing_numbers(found, x);
    let value = k.value;
    *out = value;
    k.how
}

// ---- a row's columns and its surfaces

// One number a coordinate.
pub type Entries = [f64; 16];

// x and y of side A's surface, then of side B's.
pub type Surfaces = [f64; 4];

// Writes the gradient of row i, or its slip, out of those of n rows, with 0.0 behind it, and answers 0; where there is no such row answers 12, and nothing is written.
#[unsafe(no_mangle)]
pub extern "C" fn sewqirun_row_entries(
    out: &mut Entries,
    entries: &[f64],
    coords: usize,
    n: usize,
    i: usize,
) -> usize
    ensures { (result ≡ refused_by (row_entries entries.now coords n i)) × (out.new ≡ entries_over out.old (row_entries entries.now coords n i)) }
{
    match row_entries(entries, coords, n, i) {
        Ok(a) => {
            let entry = a.entry;
            *out = entry;
            0
        }
        Err(p) => p.number(),
    }
}

// Writes where the surfaces of both sides are by a row.
#[unsafe(no_mangle)]
pub extern "C" fn sewqirun_surfaces(out: &mut Surfaces, place: &Place, value: &Value)
    ensures { out.new ≡ surfaces_of (row_in place.now value.now) }
{
    let row = Row::from((*place, *value));
    let a = row.on_a();
    let b = row.on_b();
    *out = [a.x, a.y, b.x, b.y];
}

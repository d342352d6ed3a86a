// The functions of `row_exports` for callers in C and Rust, as a static library: each has the clauses of the one that it calls.
#![tactic(auto)]

ghost use Rattle.std.specs.Prelude.{◌≡◌, length, unwrap_or};
ghost use Rattle.mechanism.specs.Rows.{pair_in, gap_in, row_in};
ghost use Rattle.governing.specs.Governing.{governing_of, gap_of, records_in, row_entries};
ghost use Rattle.row_records.specs.Records.{governing_record, gap_record, records_of};
ghost use Rattle.row_exports.specs.Numbers.{bearing_by, refused_by, entries_over, surfaces_of};

use mechanism::rows::{Place, Value};
use row_exports::{Entries, Surfaces};

// `row_exports::sewqirun_governing`.
#[unsafe(no_mangle)]
pub extern "C" fn sewqirun_governing(
    places: &[Place],
    values: &[Value],
    n: usize,
    pair: usize,
) -> usize
    ensures { result ≡ unwrap_or (governing_of (pair_in places.now) (gap_in values.now) (records_in n (length places.now) (length values.now)) pair) n }
{
    row_exports::sewqirun_governing(places, values, n, pair)
}

// `row_exports::sewqirun_gap`.
#[unsafe(no_mangle)]
pub extern "C" fn sewqirun_gap(
    places: &[Place],
    values: &[Value],
    n: usize,
    pair: usize,
    x: f64,
) -> f64
    ensures { result ≡ unwrap_or (gap_of (pair_in places.now) (gap_in values.now) (governing_of (pair_in places.now) (gap_in values.now) (records_in n (length places.now) (length values.now)) pair)) x }
{
    row_exports::sewqirun_gap(places, values, n, pair, x)
}

// `row_exports::sewqirun_governing_record`.
#[unsafe(no_mangle)]
pub extern "C" fn sewqirun_governing_record(
    places: &[Place],
    values: &[Value],
    pair: usize,
) -> usize
    ensures { result ≡ unwrap_or (governing_record (records_of places.now values.now (records_in 64 (length places.now) (length values.now))) pair) 64 }
{
    row_exports::sewqirun_governing_record(places, values, pair)
}

// `row_exports::sewqirun_gap_record`.
#[unsafe(no_mangle)]
pub extern "C" fn sewqirun_gap_record(
    places: &[Place],
    values: &[Value],
    pair: usize,
    x: f64,
) -> f64
    ensures { result ≡ unwrap_or (gap_record (records_of places.now values.now (records_in 64 (length places.now) (length values.now))) pair) x }
{
    row_exports::sewqirun_gap_record(places, values, pair, x)
}

// `row_exports::sewqirun_bearing_record`.
#[unsafe(no_mangle)]
pub extern "C" fn sewqirun_bearing_record(
    out: &mut Surfaces,
    text: &[u8],
    places: &[Place],
    values: &[Value],
    pair: usize,
    x: f64,
) -> usize
    ensures { (result ≡ (bearing_by text.now places.now values.now pair x).how) × (out.new ≡ (bearing_by text.now places.now values.now pair x).value) }
{
    row_exports::sewqirun_bearing_record(out, text, places, values, pair, x)
}

// `row_exports::sewqirun_row_entries`.
#[unsafe(no_mangle)]
pub extern "C" fn sewqirun_row_entries(
    out: &mut Entries,
    entries: &[f64],
    coords: usize,
    n: usize,
    i: usize,
) -> usize
    ensures { (result ≡ refused_by (row_entries entries.now coords n i)) × (out.new ≡ entries_over out.old (row_entries entries.now coords n i)) }
{
    row_exports::sewqirun_row_entries(out, entries, coords, n, i)
}

// `row_exports::sewqirun_surfaces`.
#[unsafe(no_mangle)]
pub extern "C" fn sewqirun_surfaces(out: &mut Surfaces, place: &Place, value: &Value)
    ensures { out.new ≡ surfaces_of (row_in place.now value.now) }
{
    row_exports::sewqirun_surfaces(out, place, value)
}

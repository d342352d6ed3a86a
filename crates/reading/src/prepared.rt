// The whole reading of a prepared description at a pose, in one call: no large value is copied, and everything that does not depend on the pose was made before.
ghost use Rattle.std.specs.Prelude.{◌≡◌, ◌≤◌, length};
ghost use Rattle.bodies.specs.Pose.{bodies_placed};
ghost use Rattle.mechanism.specs.Rows.{lists_of};
ghost use Rattle.strips.specs.Strips.{table_rows};
ghost use Rattle.pair_rows.specs.PairRows.{SameArrays};
ghost use Rattle.shown_rows.specs.Rows.{rows_over};
ghost use Rattle.prepared_rows.specs.Prepared.{all_rows, prepared_lists, prepared_asked};
ghost use Rattle.governing.specs.Governing.{records_in};
ghost use Rattle.reading.specs.Prepared.{pair_reading_in, pair_readings_in, read_in, read_asked};

use super::{PairReading, Reading, read_pairs};
use bearings::prepared::governed_in;
use bodies::pose::{Lent, Pose};
use bodies::{Bodies, Problem};
use faces::prepared::face_overlap_in;
use mechanism::bearing::Bearing;
use mechanism::rows::{LentRows, ReadRows};
use overlap::prepared::pair_overlap_in;
use prepared_rows::rows_in;
use strips::tables::Tables;

// Pair i by the first n rows.
fn read_pair(t: &Tables, q: Pose, rows: &ReadRows, i: usize) -> PairReading
    ensures { result ≡ pair_reading_in (table_rows t.now) q rows.now.places.now rows.now.values.now (records_in rows.now.count (length rows.now.places.now) (length rows.now.values.now)) i }
{
    PairReading {
        overlap: pair_overlap_in(t, q, i),
        face_overlap: face_overlap_in(t, q, i),
        bearing: governed_in(t, q, rows, i),
    }
}

// Every pair by the n rows that are there.
fn read_by(t: &Tables, pairs: usize, q: Pose, rows: &LentRows, n: usize) -> Reading
    requires { (pairs ≤ 16) × (n ≤ length (lists_of rows.now).places) × (n ≤ length (lists_of rows.now).values) }
    ensures { result ≡ record { count = n; pairs = pairs; pair = pair_readings_in (table_rows t.now) q (lists_of rows.now).places (lists_of rows.now).values n pairs } }
{
    let read = ReadRows {
        places: rows.places,
        values: rows.values,
        count: n,
    };
    read_pairs(pairs, n, |i| read_pair(t, q, &read, i))
}

// The rows at a pose, then every pair.
fn read_posed(
    bodies: Bodies,
    t: &Tables,
    pairs: usize,
    q: Pose,
    margin: f64,
    rows: &mut LentRows,
) -> Result<Reading, Problem>
    ensures value { result ≡ read_in (table_rows t.now) (prepared_asked bodies pairs (table_rows t.now) q (lists_of rows.old)) pairs q (all_rows (table_rows t.now) q margin pairs) }
    ensures after { lists_of rows.new ≡ rows_over (prepared_asked bodies pairs (table_rows t.now) q (lists_of rows.old)) (prepared_lists (table_rows t.now) bodies q margin pairs) (lists_of rows.old) }
    ensures same { SameArrays rows.old rows.new }
{
    let n = rows_in(bodies, t, pairs, q, margin, rows)?;
    Ok(read_by(t, pairs, q, rows, n))
}

// Places the bodies for the lent entries, writes the rows of the first `pairs` pairs as `rows_in` does, and reads the overlaps and the bearing of every pair.
#[tactic(auto, unfolding(crate::specs::Prepared::read_checked))]
pub fn read_in(
    bodies: Bodies,
    t: &Tables,
    pairs: usize,
    entries: &[Lent],
    margin: f64,
    rows: &mut LentRows,
) -> Result<Reading, Problem>
    ensures value { let r = table_rows t.now in
        let q = bodies_placed bodies entries.now in
        result ≡ read_in r (read_asked bodies pairs r entries.now (lists_of rows.old)) pairs q (all_rows r q margin pairs) }
    ensures after { let r = table_rows t.now in
        let q = bodies_placed bodies entries.now in
        lists_of rows.new ≡ rows_over (read_asked bodies pairs r entries.now (lists_of rows.old)) (prepared_lists r bodies q margin pairs) (lists_of rows.old) }
    ensures same { SameArrays rows.old rows.new }
{
    if 16 < pairs {
        return Err(Problem::LimitPassed);
    }
    let q = bodies.pose(entries)?;
    read_posed(bodies, t, pairs, q, margin, rows)
}

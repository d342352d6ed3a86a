// How side A of a pair bears on side B, over a prepared description.
ghost use Rattle.std.specs.Prelude.{◌≡◌};
ghost use Rattle.governing.specs.Governing.{governing_in};
ghost use Rattle.strips.specs.Strips.{table_rows, pair_in};
ghost use Rattle.bearings.specs.Bearing.{governed_bearing, row_at};

use super::{bearing, governing_row};
use bodies::pose::Pose;
use mechanism::bearing::Bearing;
use mechanism::rows::ReadRows;
use strips::tables::Tables;
use strips::{row_a, row_b};

// The bearing by the governing row of the pair.
#[tactic(auto, unfolding(strips::specs::Strips::pair_in), using(crate::proofs::Answered::by_row))]
pub fn governed_in(t: &Tables, q: Pose, rows: &ReadRows, pair: usize) -> Option<Bearing>
    ensures { result ≡ governed_bearing (pair_in (table_rows t.now) pair) q (row_at rows.now.places.now rows.now.values.now)
        (governing_in rows.now.places.now rows.now.values.now rows.now.count pair) }
{
    let r = governing_row(rows, pair)?;
    bearing(&t.side(row_a(pair)), &t.side(row_b(pair)), q, r)
}

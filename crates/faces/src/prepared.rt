// How far side B's drawn faces stand past side A's, over a prepared description.
ghost use Rattle.std.specs.Prelude.{◌≡◌};
ghost use Rattle.strips.specs.Strips.{table_rows};
ghost use Rattle.faces.specs.Prepared.{face_overlap_in};

use super::overlap_of;
use bodies::pose::Pose;
use strips::tables::Tables;
use strips::{row_a, row_b};

// How far the drawn faces of a pair's side B stand past those of its side A.
#[tactic(auto, unfolding(crate::specs::Prepared::face_overlap_in, strips::specs::Strips::pair_in))]
pub fn face_overlap_in(t: &Tables, q: Pose, pair: usize) -> f64
    ensures { result ≡ face_overlap_in (table_rows t.now) q pair }
{
    overlap_of(&t.side(row_a(pair)), &t.side(row_b(pair)), q)
}

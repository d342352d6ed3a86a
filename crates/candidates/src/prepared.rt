// The candidates of a pair at a pose, over a prepared description.
ghost use Rattle.std.specs.Prelude.{◌≡◌, cond, [], ◌≤◌, length};
ghost use Rattle.drawing.specs.Prepared.{all_drawn, material_or};
ghost use Rattle.strips.specs.Strips.{table_rows};
ghost use Rattle.proximities.specs.Proximities.{Written};
ghost use Rattle.candidates.specs.Prepared.{bound_in, room_for_pair, candidates_from};

use super::{Drawing, of_center, of_features};
use bodies::pose::Pose;
use drawing::prepared::{all_drawn, choice_at, draw_in};
use drawing::{Chosen, Polygons};
use material::Spot;
use proximities::Candidate;
use strips::tables::Tables;
use strips::{row_a, row_b, row_of_material};

// Tables at a pose, with the chosen parts of each side.
#[derive(Clone, Copy)]
struct Prepared<'a> {
    tables: &'a Tables<'a>,
    q: Pose,
    a: Chosen,
    b: Chosen,
}

impl Drawing for Prepared<'_> {
    ghost material_a = { λ p. material_or (table_rows p.tables.now) p.q p.a };

    ghost material_b = { λ p. material_or (table_rows p.tables.now) p.q p.b };

    ghost most = { λ p. all_drawn (table_rows p.tables.now) };

    fn room(&self) -> usize {
        all_drawn(self.tables)
    }

    fn draw_a(&self, points: &mut [Spot], starts: &mut [usize]) -> Polygons {
        draw_in(points, starts, self.tables, self.q, self.a)
    }

    fn draw_b(&self, points: &mut [Spot], starts: &mut [usize]) -> Polygons {
        draw_in(points, starts, self.tables, self.q, self.b)
    }
}

// The row bound of a pair.
#[tactic(auto, using(crate::proofs::Pairs::features_bound, crate::proofs::Pairs::center_bound))]
pub fn pair_bound_in(t: &Tables, pair: usize) -> usize
    ensures { (result ≡ bound_in (table_rows t.now) pair) × (result ≤ 1456) }
{
    let a = t.facts(row_a(pair));
    if a.geometry == 0 {
        let b = t.facts(row_b(pair));
        return a.discs * b.faces + b.discs * a.faces + a.discs * b.discs;
    }
    a.faces
}

fn candidates_of(out: &mut [Candidate], t: &Tables, q: Pose, pair: usize) -> usize
    requires { bound_in (table_rows t.now) pair ≤ length out.old }
    ensures { Written (candidates_from (table_rows t.now) q pair) 0 result out.old out.new }
{
    let i = row_a(pair);
    let j = row_b(pair);
    let a = t.side(i);
    let b = t.side(j);
    let from = Prepared {
        tables: t,
        q,
        a: choice_at(t, row_of_material(i)),
        b: choice_at(t, row_of_material(j)),
    };
    if t.facts(i).geometry == 0 {
        return of_features(out, &from, q, &a, &b);
    }
    of_center(out, &from, q, &a, &b)
}

// Writes the candidates of a pair at a pose, in order; nothing where the array is too short.
pub fn pair_candidates_in(out: &mut [Candidate], t: &Tables, q: Pose, pair: usize) -> usize
    ensures { Written (cond (room_for_pair (table_rows t.now) pair (length out.old)) (candidates_from (table_rows t.now) q pair) []) 0 result out.old out.new }
{
    if pair_bound_in(t, pair) <= out.len() {
        return candidates_of(out, t, q, pair);
    }
    0
}

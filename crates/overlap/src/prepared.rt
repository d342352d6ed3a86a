// How deep parts stand in one another, over a prepared description.
ghost use Rattle.std.specs.Prelude.{◌≡◌, ℕ, map, ◌≤◌, length};
ghost use Rattle.laws.specs.Lists.{list_in};
ghost use Rattle.ieee.specs.Consts.{zero_f};
ghost use Rattle.ieee.specs.Num.{max_of};
ghost use Rattle.material.specs.Material.{drawn_material, deepest_square};
ghost use Rattle.bodies.specs.Pose.{world_of};
ghost use Rattle.strips.specs.Strips.{sampled_at, table_rows, row_of_material, row_of_sampled};
ghost use Rattle.strips.proofs.Bounds.{at-most_small};
ghost use Rattle.drawing.specs.Prepared.{parts_in, all_drawn, choice_at, material_in};
ghost use Rattle.overlap.specs.Prepared.{samples_in, sunk_in, pair_overlap_in, ask_checked, pair_overlap_answer_in};

use crate::sunk::{Sampled, sunk_both};
use bodies::check::bodies_stand;
use bodies::pose::{Placement, Pose, placement_at};
use bodies::{Bodies, Problem};
use drawing::prepared::{all_drawn, choice_at, draw_in, part_count};
use drawing::{Chosen, Polygons};
use ieee::num::max;
use material::Spot;
use material::ranged::Ranged;
use mechanism::check::then_called;
use strips::tables::Tables;
use strips::{row_a, row_b, row_of_material, row_of_sampled};

// The largest of `from` and the squares of the depths of n samples from row `first` on, placed.
fn sunk_part(m: &Ranged, t: &Tables, first: usize, n: usize, place: Placement, from: f64) -> f64
    requires { (first ≤ 65535) × (n ≤ 1598) }
    ensures { result ≡ deepest_square (drawn_material m.now.material) from (map (world_of place) (list_in (sampled_at (table_rows t.now)) n first)) }
{
    let mut d = from;
    for i in 0..n {
        let p = place.world(t.sampled_point(first + i));
        d = m.deeper_square(p, d);
    }
    d
}

// The parts of tables, at a pose.
#[derive(Clone, Copy)]
struct PlacedTables<'a> {
    tables: &'a Tables<'a>,
    q: Pose,
}

impl Sampled for PlacedTables<'_> {
    ghost count = { λ s. parts_in (table_rows s.tables.now) };

    ghost samples = { λ s. samples_in (table_rows s.tables.now) s.q };

    ghost material = { λ s. material_in (table_rows s.tables.now) s.q };

    ghost room = { λ s. all_drawn (table_rows s.tables.now) };

    ghost few = { λ s. at-most_small (length s.tables.now.parts.now) 32 };

    fn count(&self) -> usize {
        part_count(self.tables)
    }

    fn deepest(&self, m: &Ranged, i: usize, from: f64) -> f64 {
        let p = self.tables.part(i);
        let place = placement_at(self.q, p.body);
        sunk_part(m, self.tables, p.sampled, p.samples, place, from)
    }

    fn draw(&self, points: &mut [Spot], starts: &mut [usize], c: Chosen) -> Polygons {
        draw_in(points, starts, self.tables, self.q, c)
    }
}

// Both sides of a pair, each in the other's material.
fn sunk_sides(points: &mut [Spot], t: &Tables, q: Pose, a: usize, b: usize) -> f64
    requires { all_drawn (table_rows t.now) ≤ length points.old }
    ensures { let rows = table_rows t.now in
        let sampled = λ (k : ℕ). choice_at rows (row_of_sampled k) in
        let material = λ (k : ℕ). material_in rows q (choice_at rows (row_of_material k)) in
        result ≡ max_of (max_of zero_f (sunk_in rows q (sampled a) (material b))) (sunk_in rows q (sampled b) (material a)) }
{
    let s = sunk_both(
        points,
        &PlacedTables { tables: t, q },
        choice_at(t, row_of_sampled(a)),
        choice_at(t, row_of_material(a)),
        choice_at(t, row_of_sampled(b)),
        choice_at(t, row_of_material(b)),
    );
    max(max(0.0, s.into), s.back)
}

// A pair, with room for the polygons.
fn overlap_by(points: &mut [Spot], t: &Tables, q: Pose, pair: usize) -> f64
    requires { (all_drawn (table_rows t.now) ≤ length points.old) × (all_drawn (table_rows t.now) ≤ 6144) }
    ensures { result ≡ pair_overlap_in (table_rows t.now) q pair }
{
    let a = row_a(pair);
    let b = row_b(pair);
    if t.facts(a).geometry == 0 {
        return sunk_sides(points, t, q, a, b);
    }
    let place = placement_at(q, t.facts(b).body);
    let c = choice_at(t, row_of_material(a));
    let mut starts = [0usize; 33];
    let n = draw_in(points, &mut starts, t, q, c);
    n.held(points, &starts).depth(place.world(t.center(b)))
}

// The same with room for N drawn points of its own.
fn overlap_with<const N: usize>(t: &Tables, q: Pose, pair: usize) -> f64
    requires { (all_drawn (table_rows t.now) ≤ N) × (N ≤ 6144) }
    ensures { result ≡ pair_overlap_in (table_rows t.now) q pair }
{
    let mut points = [[0.0; 2]; N];
    overlap_by(&mut points, t, q, pair)
}

// How deep the two sides of a pair stand in one another. Each room is a call of its own: a function pays for all its arrays when it is entered.
pub fn pair_overlap_in(t: &Tables, q: Pose, pair: usize) -> f64
    ensures { result ≡ pair_overlap_in (table_rows t.now) q pair }
{
    let n = all_drawn(t);
    if n <= 256 {
        return overlap_with::<256>(t, q, pair);
    }
    if n <= 1024 {
        return overlap_with::<1024>(t, q, pair);
    }
    if n <= 6144 {
        return overlap_with::<6144>(t, q, pair);
    }
    0.0
}

// What is refused of a question about pair `pair` of `pairs`.
fn ask_checked(bodies: Bodies, pairs: usize, q: Pose, pair: usize) -> Result<(), Problem>
    ensures { result ≡ ask_checked bodies pairs q pair }
{
    if 16 < pairs {
        return Err(Problem::LimitPassed);
    }
    then_called(bodies_stand(bodies), q.fits(bodies), pair < pairs, true)
}

// The same of pair `pair` of `pairs`, or the first refusal that applies.
pub fn pair_overlap(
    bodies: Bodies,
    t: &Tables,
    pairs: usize,
    q: Pose,
    pair: usize,
) -> Result<f64, Problem>
    ensures { result ≡ pair_overlap_answer_in (table_rows t.now) bodies pairs q pair }
{
    ask_checked(bodies, pairs, q, pair)?;
    Ok(pair_overlap_in(t, q, pair))
}

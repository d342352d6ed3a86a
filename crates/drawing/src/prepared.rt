// Drawn material over a prepared description: its parts and their drawn points in lent arrays.
ghost use Rattle.std.specs.Prelude.{◌≡◌, map, ◌+◌, ◌≤◌, length};
ghost use Rattle.std.proofs.lemmas.List.Edits.{sets};
ghost use Rattle.laws.specs.Lists.{list_in};
ghost use Rattle.bodies.specs.Pose.{world_of};
ghost use Rattle.strips.specs.Strips.{drawn_at, table_rows};
ghost use Rattle.strips.proofs.Bounds.{at-most_small};
ghost use Rattle.drawing.specs.Drawing.{Laid, row_of};
ghost use Rattle.drawing.specs.Prepared.{parts_in, all_drawn, choice_at, polygon_in, solids_in, cuts_in, room_in};

use super::outlined::{Outlined, draw_chosen};
use super::{Chosen, Polygons, no_polygons};
use bodies::pose::{Placement, Pose, placement_at};
use material::Spot;
use strips::tables::Tables;

// What each part is to a side; nothing where there is no such row.
pub fn choice_at(t: &Tables, i: usize) -> Chosen
    ensures { result ≡ choice_at (table_rows t.now) i }
{
    if i < t.choices.len() {
        return Chosen { what: t.choices[i] };
    }
    Chosen { what: [0u8; 32] }
}

// How many parts there are; thirty-two at most.
pub fn part_count(t: &Tables) -> usize
    ensures { (result ≡ parts_in (table_rows t.now)) × (result ≤ 32) }
{
    t.parts.len().min(32)
}

// How many points all polygons have.
pub fn all_drawn(t: &Tables) -> usize
    ensures { (result ≡ all_drawn (table_rows t.now)) × (result ≤ 24064) }
{
    let mut sum = 0;
    for i in 0..part_count(t) {
        sum += t.part(i).points;
    }
    sum
}

// Writes n points from row `first` on, placed, from `at` on.
fn place_points(
    points: &mut [Spot],
    at: usize,
    t: &Tables,
    first: usize,
    n: usize,
    place: Placement,
)
    requires { (at + n ≤ length points.old) × (first ≤ 65535) × (n ≤ 752) }
    ensures { points.new ≡ sets points.old at (map row_of (map (world_of place) (list_in (drawn_at (table_rows t.now)) n first))) }
{
    for i in 0..n {
        let p = place.world(t.drawn_point(first + i));
        points[at + i] = [p.x, p.y];
    }
}

// The parts of tables, at a pose.
#[derive(Clone, Copy)]
struct PlacedTables<'a> {
    tables: &'a Tables<'a>,
    q: Pose,
}

impl Outlined for PlacedTables<'_> {
    ghost count = { λ s. parts_in (table_rows s.tables.now) };

    ghost polygon = { λ s. polygon_in (table_rows s.tables.now) s.q };

    ghost few = { λ s. at-most_small (length s.tables.now.parts.now) 32 };

    fn count(&self) -> usize {
        part_count(self.tables)
    }

    fn draw_part(&self, points: &mut [Spot], at: usize, i: usize) -> usize {
        let p = self.tables.part(i);
        let place = placement_at(self.q, p.body);
        place_points(points, at, self.tables, p.drawn, p.points, place);
        at + p.points
    }
}

fn room_in(t: &Tables, points: usize, starts: usize) -> bool
    ensures { result ≡ room_in (table_rows t.now) points starts }
{
    (all_drawn(t) <= points) & (33 <= starts)
}

// Writes the polygons of the chosen parts, the solids first, and where each of them starts; nothing where the arrays are too short.
pub fn draw_in(
    points: &mut [Spot],
    starts: &mut [usize],
    t: &Tables,
    q: Pose,
    c: Chosen,
) -> Polygons
    ensures { let rows = table_rows t.now in
        let there = room_in rows (length points.old) (length starts.old) in
        Laid there (solids_in rows q c) (cuts_in rows q c) points.old starts.old result points.new starts.new }
{
    let n = points.len();
    let m = starts.len();
    if room_in(t, n, m) {
        let placed = PlacedTables { tables: t, q };
        return draw_chosen(points, starts, &placed, c);
    }
    no_polygons()
}

// The polygons of chosen parts, one behind the other in lent arrays.
ghost use Rattle.std.specs.Prelude.{◌≡◌, ℕ, true, List, ◌++◌, map, ◌+◌, ◌<◌, ◌≤◌, length};
ghost use Rattle.std.proofs.lemmas.List.Edits.{sets};
ghost use Rattle.geometry.specs.declared.Point.{Point};
ghost use Rattle.drawing.specs.Drawing.{Laid, chosen_polygons, row_of, rows_of, ends_from, cursor_after};

use super::{Chosen, Polygons};
use material::Spot;

// Parts with their outlines, however those are held.
pub trait Outlined {
    // How many parts there are.
    ghost count: { Self → ℕ };

    // The polygon of part i, placed with its body.
    ghost polygon: { Self → ℕ → List Point };

    fn count(&self) -> usize
        ensures { result ≡ count self.now };

    // Writes the polygon of part i from `at` on.
    fn draw_part(&self, points: &mut [Spot], at: usize, i: usize) -> usize
        requires { (i < count self.now) × (at + length (polygon self.now i) ≤ length points.old) }
        ensures { (result ≡ at + length (polygon self.now i)) × (points.new ≡ sets points.old at (map row_of (polygon self.now i))) };

    ghost few: { (s : Self) → count s ≤ 32 };
}

// Where the next polygon goes: behind `at` points and `count` polygons.
#[derive(Clone, Copy)]
pub struct Cursor {
    at: usize,
    count: usize,
}

// Writes the polygons of the parts chosen as w, in order, behind those that are there.
fn draw_all<O: Outlined>(
    points: &mut [Spot],
    starts: &mut [usize],
    o: &O,
    c: Chosen,
    w: u8,
    from: Cursor,
) -> Cursor
    requires { let polys = chosen_polygons (O.polygon o.now) (O.count o.now) c w in
        (from.at + length (rows_of polys) ≤ length points.old) × (from.count + length polys < length starts.old) }
    ensures { let polys = chosen_polygons (O.polygon o.now) (O.count o.now) c w in
        (result ≡ cursor_after from polys) × (points.new ≡ sets points.old from.at (rows_of polys)) × (starts.new ≡ sets starts.old (from.count + 1) (ends_from from.at polys)) }
{
    let mut at = from.at;
    let mut k = from.count;
    for i in 0..o.count() {
        if c.what[i] == w {
            at = o.draw_part(points, at, i);
            k += 1;
            starts[k] = at;
        }
    }
    Cursor { at, count: k }
}

// Writes the polygons of the chosen parts, the solids first, and where each of them starts.
pub(crate) fn draw_chosen<O: Outlined>(
    points: &mut [Spot],
    starts: &mut [usize],
    o: &O,
    c: Chosen,
) -> Polygons
    requires { let solids = chosen_polygons (O.polygon o.now) (O.count o.now) c 1 in
        let cuts = chosen_polygons (O.polygon o.now) (O.count o.now) c 2 in
        (length (rows_of (solids ++ cuts)) ≤ length points.old) × (33 ≤ length starts.old) }
    ensures { let solids = chosen_polygons (O.polygon o.now) (O.count o.now) c 1 in
        let cuts = chosen_polygons (O.polygon o.now) (O.count o.now) c 2 in
        Laid true solids cuts points.old starts.old result points.new starts.new }
{
    starts[0] = 0;
    let first = Cursor { at: 0, count: 0 };
    let solids = draw_all(points, starts, o, c, 1, first);
    let all = draw_all(points, starts, o, c, 2, solids);
    Polygons {
        solids: solids.count,
        all: all.count,
        points: all.at,
    }
}

// Drawn material as polygons in lent arrays: inside, depth, and the largest square of the depths of many points (contact/rows.rs: `Material`, `inside`).
#![tactic(auto)]

ghost use Rattle.std.specs.Prelude.{◌≡◌, false, ◌+◌, ◌-◌, ◌%◌, ◌^◌, ◌<◌, ◌≤◌, get_or};
ghost use Rattle.std.specs.Float.Ieee.{is_nan};
ghost use Rattle.laws.specs.Lists.{list_in, any};
ghost use Rattle.material.specs.Material.{cross_of, inside_of, holds_of, square_of, least_in, least_among, Serves, square_depth, depth_of, points_of, between, poly_at, drawn_material, edges_of};
ghost use Rattle.material.specs.Range.{low_of, high_of, range_of, outside_of};

pub mod ranged;

use geometry::Point;
use ieee::num::{clamp, infinity};
use ieee::root::root;

// A point by its two coordinates.
pub type Spot = [f64; 2];

// i where it is below n, and 0 where it is n: i % n.
fn wrap(i: usize, n: usize) -> usize
    requires { (i ≤ n) × (0 < n) }
    ensures { (result ≡ i % n) × (result < n) }
{
    if i < n { i } else { 0 }
}

// Whether the edge from a to b crosses the ray from p.
#[tactic(auto, unfolding(crate::specs::Material::cross_of))]
fn crosses(a: Point, b: Point, p: Point) -> bool
    ensures { result ≡ cross_of p (record { a = a; b = b }) }
{
    let up = p.y < a.y;
    let down = p.y < b.y;
    if up != down {
        let x = a.x + (p.y - a.y) * (b.x - a.x) / (b.y - a.y);
        p.x < x
    } else {
        false
    }
}

// Whether p is inside a closed polygon. The closing edge is taken after the loop, so that the loop wraps no index.
pub fn inside(poly: &[Spot], p: Point) -> bool
    ensures { result ≡ inside_of p (points_of poly.now) }
{
    let n = poly.len();
    if n == 0 {
        return false;
    }
    let last = n - 1;
    let mut odd = false;
    for i in 0..last {
        let u = poly[i];
        let v = poly[i + 1];
        let a = Point { x: u[0], y: u[1] };
        let b = Point { x: v[0], y: v[1] };
        if crosses(a, b, p) {
            odd = !odd;
        }
    }
    let u = poly[last];
    let v = poly[0];
    let a = Point { x: u[0], y: u[1] };
    let b = Point { x: v[0], y: v[1] };
    if crosses(a, b, p) {
        return !odd;
    }
    odd
}

// The points from a up to e, as far as there are any.
fn part<'a>(points: &'a [Spot], a: usize, e: usize) -> &'a [Spot]
    ensures { result.now ≡ between points.now a e }
{
    let n = points.len();
    if e <= a || n <= a {
        return &points[n..n];
    }
    &points[a..e.min(n)]
}

// Drawn material in lent arrays: polygon k has the points from starts[k] up to starts[k + 1], and the first `solids` of `all` polygons are parts, the others cuts.
#[derive(Clone, Copy)]
pub struct DrawnMaterial<'a> {
    pub points: &'a [Spot],
    pub starts: &'a [usize],
    pub solids: usize,
    pub all: usize,
}

impl DrawnMaterial<'_> {
    // Where polygon k starts, 0 past the last.
    fn start(&self, k: usize) -> usize
        ensures { result ≡ get_or self.now.starts.now k 0 }
    {
        self.starts.get(k).copied().unwrap_or(0)
    }

    // The points of polygon k.
    fn polygon(&self, k: usize) -> &[Spot]
        requires { k + 1 < 2 ^ 64 }
        ensures { points_of result.now ≡ poly_at self.now.points.now self.now.starts.now k }
    {
        part(self.points, self.start(k), self.start(k + 1))
    }

    // Whether p is inside one of the polygons from `from` up to `to`.
    fn any_inside(&self, from: usize, to: usize, p: Point) -> bool
        ensures { result ≡ any (inside_of p) (list_in (poly_at self.now.points.now self.now.starts.now) (to - from) from) }
    {
        for i in from..to {
            if inside(self.polygon(i), p) {
                return true;
            }
        }
        false
    }

    // Whether p is inside a part and outside every cut.
    pub fn holds(&self, p: Point) -> bool
        ensures { result ≡ holds_of (drawn_material self.now) p }
    {
        self.any_inside(0, self.solids, p) && !self.any_inside(self.solids, self.all, p)
    }

    // The least of `from` and the squares of p's distances from the edges of the polygons from `first` up to `to`. Numbers up to `enough` make no difference.
    fn least(&self, first: usize, to: usize, p: Point, from: f64, enough: f64) -> f64
        requires { is_nan from ≡ false }
        ensures { Serves enough result (least_among p from (list_in (poly_at self.now.points.now self.now.starts.now) (to - first) first)) × (is_nan result ≡ false) }
    {
        let mut best = from;
        for i in first..to {
            best = least_of(self.polygon(i), p, best, enough);
        }
        best
    }

    // The least square of p's distances from the edges of the parts and the cuts, where the material holds p; zero outside. Numbers up to `enough` make no difference.
    fn square_depth(&self, p: Point, enough: f64) -> f64
        ensures { Serves enough result (square_depth (drawn_material self.now) p) }
    {
        if self.holds(p) {
            let s = self.least(0, self.solids, p, infinity(), enough);
            self.least(self.solids, self.all, p, s, enough)
        } else {
            0.0
        }
    }

    // How deep p stands inside the material: its distance to the nearest edge of a part or a cut; zero outside. One root is taken, of the least square.
    pub fn depth(&self, p: Point) -> f64
        ensures { result ≡ depth_of (drawn_material self.now) p }
    {
        root(self.square_depth(p, 0.0 / 0.0))
    }
}

// The square of p's distance from the edge from a to b.
#[tactic(auto, unfolding(crate::specs::Material::square_of))]
fn square(a: Point, b: Point, p: Point) -> f64
    ensures { result ≡ square_of p (record { a = a; b = b }) }
{
    let ex = b.x - a.x;
    let ey = b.y - a.y;
    let e2 = ex * ex + ey * ey;
    let t = if 0.0 < e2 {
        clamp(((p.x - a.x) * ex + (p.y - a.y) * ey) / e2)
    } else {
        0.0
    };
    let dx = p.x - a.x - t * ex;
    let dy = p.y - a.y - t * ey;
    dx * dx + dy * dy
}

// The least of `from` and the squares of p's distances from the polygon's edges. Where numbers up to `enough` make no difference the first of them that is met will do.
fn least_of(poly: &[Spot], p: Point, from: f64, enough: f64) -> f64
    requires { is_nan from ≡ false }
    ensures { Serves enough result (least_in p from (edges_of (points_of poly.now))) × (is_nan result ≡ false) }
{
    let n = poly.len();
    let mut best = from;
    for i in 0..n {
        let u = poly[i];
        let v = poly[wrap(i + 1, n)];
        let a = Point { x: u[0], y: u[1] };
        let b = Point { x: v[0], y: v[1] };
        let q = square(a, b, p);
        if q < best {
            best = q;
        }
        if best <= enough {
            return best;
        }
    }
    best
}

// A range of ordinates.
#[derive(Clone, Copy)]
pub struct Range {
    pub lo: f64,
    pub hi: f64,
}

#[tactic(auto, using(ieee::proofs::Values::zero_over_zero))]
fn low(lo: f64, y: f64) -> f64
    ensures { result ≡ low_of lo y }
{
    if lo <= y {
        lo
    } else if y < lo {
        y
    } else {
        0.0 / 0.0
    }
}

fn high(hi: f64, y: f64) -> f64
    ensures { result ≡ high_of hi y }
{
    if hi < y { y } else { hi }
}

// The range of the points' ordinates.
pub fn y_range(points: &[Spot]) -> Range
    ensures { result ≡ range_of points.now }
{
    let mut lo = infinity();
    let mut hi = -infinity();
    for v in points {
        lo = low(lo, v[1]);
        hi = high(hi, v[1]);
    }
    Range { lo, hi }
}

fn is_outside(lo: f64, hi: f64, y: f64) -> bool
    ensures { result ≡ outside_of lo hi y }
{
    (y < lo) | (hi <= y)
}

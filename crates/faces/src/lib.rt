// How far side B's drawn faces stand past side A's (contact/bearing.rs: `face_overlap`).
#![tactic(auto)]

ghost use Rattle.std.specs.Prelude.{◌≡◌, ◌<◌};
ghost use Rattle.laws.specs.Lists.{foldl};
ghost use Rattle.mechanism.specs.Description.{pair_at};
ghost use Rattle.faces.specs.Faces.{along_of, reach_of, within_of, over_of, past_of, is_long, faces_in, faces_overlap, sides_overlap, face_overlap_answer};

pub mod prepared;

use bodies::Problem;
use bodies::pose::{Placement, Pose, placement_at};
use geometry::Point;
use geometry::signed::{dot, sub};
use ieee::num::{is_nan, max, min};
use mechanism::check::call_checked;
use mechanism::pair::ContactPair;
use mechanism::{Mechanism, Pairs};
use sides::contacts::{PairFeatures, pair_features_at};
use sides::held::Side;

// Where the projection of p falls along the segment from a to b, 0 at its start and 1 at its end.
pub fn along(p: Point, a: Point, b: Point) -> f64
    ensures { result ≡ along_of p a b }
{
    let ex = b.x - a.x;
    let ey = b.y - a.y;
    ((p.x - a.x) * ex + (p.y - a.y) * ey) / (ex * ex + ey * ey)
}

// How far the point s along the segment from b0 to b1 stands past the line through a0 with the normal n.
fn reach(a0: Point, n: Point, b0: Point, b1: Point, s: f64) -> f64
    ensures { result ≡ reach_of a0 n b0 b1 s }
{
    let x = b0.x + s * (b1.x - b0.x);
    let y = b0.y + s * (b1.y - b0.y);
    -((x - a0.x) * n.x + (y - a0.y) * n.y)
}

// The deepest of `deepest` and the two ends lo and hi, where they are in order.
#[tactic(auto, unfolding(crate::specs::Faces::within_of))]
fn within(a0: Point, n: Point, b0: Point, b1: Point, lo: f64, hi: f64, deepest: f64) -> f64
    ensures { result ≡ within_of a0 n b0 b1 deepest lo hi }
{
    if hi < lo {
        return deepest;
    }
    let first = max(deepest, reach(a0, n, b0, b1, lo));
    max(first, reach(a0, n, b0, b1, hi))
}

// One face of B against A's face from a0 to a1.
#[tactic(auto, using(crate::proofs::Steps::over_part, crate::proofs::Steps::over_whole, crate::proofs::Steps::over_none))]
fn over(a0: Point, a1: Point, n: Point, b0: Point, b1: Point, deepest: f64) -> f64
    ensures { result ≡ over_of a0 a1 n b0 b1 deepest }
{
    let t0 = along(b0, a0, a1);
    let t1 = along(b1, a0, a1);
    let d = t1 - t0;
    if (0.0 < d) | (d < 0.0) {
        let s0 = (0.0 - t0) / d;
        let s1 = (1.0 - t0) / d;
        let lo = max(0.0, min(s0, s1));
        let hi = min(1.0, max(s0, s1));
        return within(a0, n, b0, b1, lo, hi, deepest);
    }
    if (0.0 <= t0) & (t0 <= 1.0) {
        return within(a0, n, b0, b1, 0.0, 1.0, deepest);
    }
    deepest
}

// A side with its placement in the world.
#[derive(Drop)]
pub struct Placed<'a, S> {
    pub side: &'a S,
    pub place: Placement,
}

// All faces of B against A's face from a0 to a1.
fn past<S: Side>(a0: Point, a1: Point, n: Point, b: &Placed<S>, deepest: f64) -> f64
    ensures { result ≡ foldl (past_of a0 a1 n b.now.place) deepest (faces_in (S.features b.now.side.now)) }
{
    let mut d = deepest;
    for i in 0..b.side.faces() {
        let f = b.side.face(i).face;
        d = over(a0, a1, n, b.place.world(f.a), b.place.world(f.b), d);
    }
    d
}

// Whether a face's placed length has a square above zero.
fn is_long(e2: f64) -> bool
    ensures { result ≡ is_long e2 }
{
    !(is_nan(e2) | (e2 <= 0.0))
}

// The deepest point of a face of B, within the span of a face of A, on the material side of that face's line; zero where none is.
fn faces_overlap<S: Side>(a: &Placed<S>, b: &Placed<S>) -> f64
    ensures { result ≡ faces_overlap (faces_in (S.features a.now.side.now)) a.now.place (faces_in (S.features b.now.side.now)) b.now.place }
{
    let mut deepest = 0.0;
    for i in 0..a.side.faces() {
        let f = a.side.face(i).face;
        let a0 = a.place.world(f.a);
        let a1 = a.place.world(f.b);
        let e = sub(a1, a0);
        if is_long(dot(e, e)) {
            deepest = past(a0, a1, a.place.rotate(f.normal.vector()), b, deepest);
        }
    }
    deepest
}

// The same of two sides at a pose.
#[tactic(auto, unfolding(crate::specs::Faces::sides_overlap))]
fn overlap_of<S: Side>(a: &S, b: &S, q: Pose) -> f64
    ensures { result ≡ sides_overlap (record { a = S.features a.now; b = S.features b.now }) q }
{
    let a = Placed {
        side: a,
        place: placement_at(q, a.body()),
    };
    let b = Placed {
        side: b,
        place: placement_at(q, b.body()),
    };
    faces_overlap(&a, &b)
}

// The same of a pair's features.
pub fn sides_overlap(p: PairFeatures, q: Pose) -> f64
    ensures { result ≡ sides_overlap p q }
{
    overlap_of(&p.a, &p.b, q)
}

fn pair_at(pairs: Pairs, i: usize) -> ContactPair
    requires { i < 16 }
    ensures { result ≡ pair_at pairs i }
{
    pairs.pair[i]
}

// How far side B's drawn faces stand past side A's, for a pair of the description.
pub fn face_overlap(m: Mechanism, q: Pose, pair: usize) -> Result<f64, Problem>
    ensures { result ≡ face_overlap_answer m q pair }
{
    call_checked(m, q.fits(m.bodies), pair < m.pairs.count, true)?;
    Ok(sides_overlap(
        pair_features_at(m.parts, m.outlines, pair_at(m.pairs, pair)),
        q,
    ))
}

// How side A of a pair bears on side B (contact/bearing.rs: `bearing`).
#![tactic(auto)]

ghost use Rattle.std.specs.Prelude.{◌≡◌, Float, map, ◌≤◌, length, option_map};
ghost use Rattle.std.specs.List.{list_any};
ghost use Rattle.std.proofs.lemmas.List.Edits.{sets};
ghost use Rattle.sides.specs.Features.{faces_in, discs_in};
ghost use Rattle.governing.specs.Governing.{governing_in};
ghost use Rattle.bearings.specs.Bearing.{at_end, meets_row, spot_of, ends_of, first_of, face_named, facing_of, reach_of, score_of, best_face};
ghost use Rattle.bearings.specs.Bearing.{run_of, alongside, slope_along, slope_of, slope_between, spans, is_level, is_flat};
ghost use Rattle.bearings.specs.Bearing.{bears_as, stop_at, stop_under, toward_of, key_at, corner_bearing, edge_on, edge_bearing, bearing_of, governed_bearing, row_at};

pub mod prepared;

use bodies::Problem;
use bodies::pose::{Placement, Pose, placement_at};
use faces::{Placed, along};
use geometry::signed::{Face, cross, dot, sub};
use geometry::{Dir, Point, on_circle};
use governing::governing_in;
use ieee::num::abs;
use ieee::order::total_order;
use ieee::root::root;
use material::Spot;
use mechanism::bearing::{Bearing, HowItBears};
use mechanism::check::same_point;
use mechanism::features::{Piece, letter};
use mechanism::rows::{ReadRows, Row};
use sides::contacts::PairFeatures;
use sides::held::Side;

// FLAT_WITHIN: how far the far edge of a stop's face may stand off for the faces to count as bedded flat, in metres.
pub const FLAT_WITHIN: f64 = 2.5e-6;

// A face with its score.
#[derive(Clone, Copy)]
struct Scored {
    face: Face,
    score: f64,
}

// ---- the ends of a piece, and the faces that meet it

fn at_end(f: Face, e: Point) -> bool
    ensures { result ≡ at_end f e }
{
    same_point(e, f.a) | same_point(e, f.b)
}

// Writes the two ends of every disc with the piece.
fn put_ends<S: Side>(ends: &mut [Spot], s: &S, piece: Piece) -> usize
    requires { 56 ≤ length ends.old }
    ensures { (result ≡ length (ends_of piece (discs_in (S.features s.now)))) × (result ≤ 56) × (ends.new ≡ sets ends.old 0 (map spot_of (ends_of piece (discs_in (S.features s.now))))) }
{
    let mut at: usize = 0;
    for i in 0..s.discs() {
        let p = s.disc(i);
        if p.piece == piece {
            let d = p.disc;
            let a = on_circle(d.center, d.radius, d.from);
            let b = on_circle(d.center, d.radius, d.to);
            ends[at] = [a.x, a.y];
            ends[at + 1] = [b.x, b.y];
            at += 2;
        }
    }
    at
}

// Whether one of the ends is one of the face's.
fn meets_any(ends: &[Spot], f: Face) -> bool
    ensures { result ≡ list_any (meets_row f) ends.now }
{
    ends.iter().any(|s| at_end(f, Point { x: s[0], y: s[1] }))
}

// The first end of the piece.
fn first_end<S: Side>(s: &S, piece: Piece) -> Option<Point>
    ensures { result ≡ first_of (ends_of piece (discs_in (S.features s.now))) }
{
    for i in 0..s.discs() {
        let p = s.disc(i);
        if p.piece == piece {
            let d = p.disc;
            return Some(on_circle(d.center, d.radius, d.from));
        }
    }
    None
}

// The first face with the piece.
fn face_named<S: Side>(s: &S, piece: Piece) -> Option<Face>
    ensures { result ≡ face_named piece (faces_in (S.features s.now)) }
{
    for i in 0..s.faces() {
        let p = s.face(i);
        if p.piece == piece {
            return Some(p.face);
        }
    }
    None
}

// ---- what faces are scored by

// How a face faces along a direction.
fn facing(place: Placement, normal: Point, f: Face) -> f64
    ensures { result ≡ facing_of place normal f }
{
    let v = f.normal.vector();
    let n = place.rotate(v);
    dot(n, normal)
}

// How far a face runs from a corner toward a point.
fn reach(place: Placement, corner: Point, toward: Point, f: Face) -> f64
    ensures { result ≡ reach_of place corner toward f }
{
    let s = place.world(f.a);
    let e = place.world(f.b);
    let far = if same_point(s, corner) { e } else { s };
    let run = sub(far, corner);
    let way = sub(toward, corner);
    dot(way, run) / root(dot(run, run))
}

// What faces are scored by: how far they run from a corner toward a point, or how they face along a direction.
#[derive(Clone, Copy)]
pub struct Aim {
    pub reaching: bool,
    pub place: Placement,
    pub corner: Point,
    pub toward: Point,
}

impl Aim {
    // The score of a face.
    pub fn score(self, f: Face) -> f64
        ensures { result ≡ score_of self f }
    {
        if self.reaching {
            return reach(self.place, self.corner, self.toward, f);
        }
        facing(self.place, self.toward, f)
    }
}

// Of the faces that meet one of the ends the last with the highest score.
fn best_face<S: Side, F: Fn(Face) -> f64>(s: &S, ends: &[Spot], score: F) -> Option<Face>
    requires { (f : _) → F.pre score f }
    ensures { (g : Face → Float) → ((f : Face) (x : Float) → F.post score f x → x ≡ g f) → result ≡ best_face (λ f. list_any (meets_row f) ends.now) g (faces_in (S.features s.now)) }
{
    let mut best: Option<Scored> = None;
    for i in 0..s.faces() {
        let face = s.face(i).face;
        if meets_any(ends, face) {
            let x = score(face);
            if best.is_none_or(|b| total_order(b.score, x)) {
                best = Some(Scored { face, score: x });
            }
        }
    }
    Some(best?.face)
}

// ---- slopes

fn run(place: Placement, f: Face) -> Point
    ensures { result ≡ run_of place f }
{
    let e = sub(f.b, f.a);
    place.rotate(e)
}

// The tangent of the angle from s to k, k turned round where it runs the other way.
fn slope_along(s: Point, k: Point) -> Option<f64>
    ensures { result ≡ slope_along s k }
{
    let x = dot(s, k);
    if x == 0.0 {
        return None;
    }
    Some(cross(s, k) / x)
}

fn turned_along(s: Point, k: Point) -> Point
    ensures { result ≡ alongside s k }
{
    if dot(k, s) < 0.0 {
        return Point { x: -k.x, y: -k.y };
    }
    k
}

// The slope of the key's face over the stop's.
#[tactic(auto, unfolding(crate::specs::Bearing::slope_of))]
fn slope(pb: Placement, stop: Face, pa: Placement, key: Face) -> Option<f64>
    ensures { result ≡ slope_of pb stop pa key }
{
    let s = run(pb, stop);
    let k = run(pa, key);
    let v = Dir::new(s.x, s.y)?.vector();
    slope_along(v, turned_along(v, k))
}

fn slope_between(pb: Placement, stop: Option<Face>, pa: Placement, key: Option<Face>) -> Option<f64>
    ensures { result ≡ slope_between pb stop pa key }
{
    slope(pb, stop?, pa, key?)
}

// ---- flat

fn is_spanned(place: Placement, f: Face, p: Point) -> bool
    ensures { result ≡ spans place f p }
{
    let a = place.world(f.a);
    let b = place.world(f.b);
    let t = along(p, a, b);
    (0.0 <= t) & (t <= 1.0)
}

fn is_level(slope: Option<f64>, length: f64) -> bool
    ensures { result ≡ is_level slope length }
{
    match slope {
        Some(x) => abs(x) * length <= FLAT_WITHIN,
        None => false,
    }
}

#[tactic(auto, unfolding(crate::specs::Bearing::is_flat))]
fn is_flat(pb: Placement, stop: Face, pa: Placement, key: Face, slope: Option<f64>) -> bool
    ensures { result ≡ is_flat pb stop pa key slope }
{
    let r = run(pb, stop);
    let s = pb.world(stop.a);
    let e = pb.world(stop.b);
    let both = is_spanned(pa, key, s) & is_spanned(pa, key, e);
    both & is_level(slope, root(dot(r, r)))
}

// ---- the bearing that a row shows

fn bears_as(how: HowItBears, r: Row, slope: Option<f64>) -> Option<Bearing>
    ensures { result ≡ bears_as how r slope }
{
    let point = r.point;
    Some(Bearing {
        how,
        gap: r.gap,
        point,
        slope,
    })
}

// The stop's face at a disc of its own.
fn stop_at<S: Side>(b: &Placed<S>, r: Row) -> Option<Face>
    ensures { result ≡ stop_at (S.features b.now.side.now) b.now.place r }
{
    let mut ends = [[0.0; 2]; 56];
    let n = put_ends(&mut ends, b.side, r.feature.b);
    let normal = r.normal.vector();
    best_face(b.side, &ends[..n], |f| facing(b.place, normal, f))
}

// The stop's face under a corner of the key.
fn stop_under<S: Side>(b: &Placed<S>, r: Row) -> Option<Face>
    ensures { result ≡ stop_under (S.features b.now.side.now) b.now.place r }
{
    let piece = r.feature.b;
    if letter(piece) == 0 {
        return face_named(b.side, piece);
    }
    stop_at(b, r)
}

// The middle of the stop's face, or the row's point without one.
fn toward(place: Placement, stop: Option<Face>, p: Point) -> Point
    ensures { result ≡ toward_of place stop p }
{
    match stop {
        Some(f) => {
            let s = place.world(f.a);
            let e = place.world(f.b);
            Point {
                x: 0.5 * (s.x + e.x),
                y: 0.5 * (s.y + e.y),
            }
        }
        None => p,
    }
}

// The key's face at its corner.
fn key_at<S: Side>(a: &Placed<S>, piece: Piece, corner: Point, toward: Point) -> Option<Face>
    ensures { result ≡ key_at (S.features a.now.side.now) a.now.place piece corner toward }
{
    let mut ends = [[0.0; 2]; 56];
    let n = put_ends(&mut ends, a.side, piece);
    best_face(a.side, &ends[..n], |f| reach(a.place, corner, toward, f))
}

// On a corner of the key.
#[tactic(auto, unfolding(crate::specs::Bearing::corner_bearing))]
fn corner_bearing<S: Side>(a: &Placed<S>, b: &Placed<S>, r: Row) -> Option<Bearing>
    ensures { result ≡ corner_bearing (S.features a.now.side.now) a.now.place (S.features b.now.side.now) b.now.place r }
{
    let piece = r.feature.a;
    let p = first_end(a.side, piece)?;
    let stop = stop_under(b, r);
    let key = key_at(a, piece, a.place.world(p), toward(b.place, stop, r.point));
    bears_as(
        HowItBears::KeyCorner,
        r,
        slope_between(b.place, stop, a.place, key),
    )
}

fn edge_on(pa: Placement, key: Face, pb: Placement, stop: Option<Face>, r: Row) -> Option<Bearing>
    ensures { result ≡ edge_on pa (Some key) pb stop r }
{
    match stop {
        Some(s) => {
            let x = slope(pb, s, pa, key);
            if is_flat(pb, s, pa, key, x) {
                return bears_as(HowItBears::Flat, r, x);
            }
            bears_as(HowItBears::StopEdge, r, x)
        }
        None => bears_as(HowItBears::StopEdge, r, None),
    }
}

// On an edge of the stop, or flat.
#[tactic(auto, unfolding(crate::specs::Bearing::edge_bearing))]
fn edge_bearing<S: Side>(a: &Placed<S>, b: &Placed<S>, r: Row) -> Option<Bearing>
    ensures { result ≡ edge_bearing (S.features a.now.side.now) a.now.place (S.features b.now.side.now) b.now.place r }
{
    let key = face_named(a.side, r.feature.a)?;
    edge_on(a.place, key, b.place, stop_at(b, r), r)
}

// How side A bears on side B by a row of theirs.
#[tactic(auto, unfolding(crate::specs::Bearing::bearing_of))]
fn bearing<S: Side>(a: &S, b: &S, q: Pose, r: Row) -> Option<Bearing>
    ensures { result ≡ bearing_of (record { a = S.features a.now; b = S.features b.now }) q r }
{
    let a = Placed {
        side: a,
        place: placement_at(q, a.body()),
    };
    let b = Placed {
        side: b,
        place: placement_at(q, b.body()),
    };
    if letter(r.feature.b) == 3 {
        return None;
    }
    if r.feature.a.is_disc() {
        return corner_bearing(&a, &b, r);
    }
    edge_bearing(&a, &b, r)
}

// The same of a pair's features.
pub fn bearing_of(f: PairFeatures, q: Pose, r: Row) -> Option<Bearing>
    ensures { result ≡ bearing_of f q r }
{
    bearing(&f.a, &f.b, q, r)
}

// The governing row of the pair.
fn governing_row(rows: &ReadRows, pair: usize) -> Option<Row>
    ensures { result ≡ option_map (row_at rows.now.places.now rows.now.values.now) (governing_in rows.now.places.now rows.now.values.now rows.now.count pair) }
{
    Some(rows.row(governing_in(rows, pair)?))
}

// The bearing by it.
#[tactic(auto, using(crate::proofs::Answered::by_row))]
pub fn governed(f: PairFeatures, q: Pose, rows: &ReadRows, pair: usize) -> Option<Bearing>
    ensures { result ≡ governed_bearing f q (row_at rows.now.places.now rows.now.values.now) (governing_in rows.now.places.now rows.now.values.now rows.now.count pair) }
{
    bearing_of(f, q, governing_row(rows, pair)?)
}

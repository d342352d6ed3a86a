// The three signed distances (geometry/signed.rs): a disc on a face, a disc on a disc, a centre on a face.
ghost use Rattle.std.specs.Prelude.{◌≡◌};
ghost use Rattle.geometry.specs.Signed.{sub_of, dot_of, cross_of, opposite, in_sector, along_of, on_span, disc_on_face, disc_on_disc, center_on_face, reversed_of, on_a, on_b};

use crate::{Dir, Point};

// A disc: its centre, its radius, and the directions that its boundary covers, counter-clockwise from `from` to `to`.
#[derive(Clone, Copy)]
pub struct Disc {
    pub center: Point,
    pub radius: f64,
    pub from: Dir,
    pub to: Dir,
}

// A straight face from a to b, and the direction that it looks in.
#[derive(Clone, Copy)]
pub struct Face {
    pub a: Point,
    pub b: Point,
    pub normal: Dir,
}

// Where two features meet: the signed gap, the normal from side B toward side A, and the point midway between the two surfaces.
#[derive(Clone, Copy)]
pub struct Proximity {
    pub gap: f64,
    pub normal: Dir,
    pub point: Point,
}

// 8 * 2^-52
pub const SECTOR_SLACK: f64 = 0.0000000000000017763568394002505;

pub fn sub(u: Point, v: Point) -> Point
    ensures { result ≡ sub_of u v }
{
    Point {
        x: u.x - v.x,
        y: u.y - v.y,
    }
}

pub fn dot(u: Point, v: Point) -> f64
    ensures { result ≡ dot_of u v }
{
    u.x * v.x + u.y * v.y
}

pub fn cross(u: Point, v: Point) -> f64
    ensures { result ≡ cross_of u v }
{
    u.x * v.y - u.y * v.x
}

// The direction's vector turned round.
pub fn turned_round(n: Dir) -> Point
    ensures { result ≡ opposite n }
{
    Point { x: -n.x, y: -n.y }
}

// Whether the unit vector u lies in the sector from `from` counter-clockwise to `to`, its boundary included within SECTOR_SLACK.
#[tactic(auto, unfolding(crate::specs::Signed::in_sector))]
pub fn in_sector(u: Point, from: Dir, to: Dir) -> bool
    ensures { result ≡ in_sector u from to }
{
    let f = from.vector();
    let t = to.vector();
    let sweep = cross(f, t);
    if 0.0 < sweep {
        return (-SECTOR_SLACK <= cross(f, u))
            & (-SECTOR_SLACK <= cross(u, t))
            & (0.0 < dot(u, f) + dot(u, t));
    }
    if sweep < 0.0 {
        return !((SECTOR_SLACK < cross(t, u)) & (SECTOR_SLACK < cross(u, f)));
    }
    if dot(f, t) < 0.0 {
        return -SECTOR_SLACK <= cross(f, u);
    }
    false
}

// Where c falls along the face, 0 at its start and 1 at its end.
#[tactic(auto, unfolding(crate::specs::Signed::along_of))]
pub fn along(c: Point, face: Face) -> Option<f64>
    ensures { result ≡ along_of c face }
{
    let edge = sub(face.b, face.a);
    let len2 = dot(edge, edge);
    if (0.0 < len2) & ieee::num::is_finite(len2) {
        Some(dot(sub(c, face.a), edge) / len2)
    } else {
        None
    }
}

// Whether a position lies from 0 to 1.
fn on_span(p: Option<f64>) -> bool
    ensures { result ≡ on_span p }
{
    p.is_some_and(|t| (0.0 <= t) & (t <= 1.0))
}

// A disc of side A against a face of side B.
#[tactic(auto, unfolding(crate::specs::Signed::disc_on_face))]
pub fn disc_on_face(disc: Disc, face: Face) -> Option<Proximity>
    ensures { result ≡ disc_on_face disc face }
{
    let c = disc.center;
    let n = face.normal.vector();
    if !on_span(along(c, face)) || !in_sector(turned_round(face.normal), disc.from, disc.to) {
        return None;
    }
    let gap = dot(sub(c, face.a), n) - disc.radius;
    let back = disc.radius + 0.5 * gap;
    Some(Proximity {
        gap,
        normal: face.normal,
        point: Point {
            x: c.x - back * n.x,
            y: c.y - back * n.y,
        },
    })
}

// A disc of side A against a disc of side B.
#[tactic(auto, unfolding(crate::specs::Signed::disc_on_disc))]
pub fn disc_on_disc(a: Disc, b: Disc) -> Option<Proximity>
    ensures { result ≡ disc_on_disc a b }
{
    let d = sub(a.center, b.center);
    let normal = Dir::new(d.x, d.y)?;
    if !in_sector(turned_round(normal), a.from, a.to) || !in_sector(normal.vector(), b.from, b.to) {
        return None;
    }
    let gap = ieee::root::root(dot(d, d)) - a.radius - b.radius;
    let out = b.radius + 0.5 * gap;
    Some(Proximity {
        gap,
        normal,
        point: Point {
            x: b.center.x + out * normal.x,
            y: b.center.y + out * normal.y,
        },
    })
}

// The centre of a face of side B against a face of side A.
#[tactic(auto, unfolding(crate::specs::Signed::center_on_face))]
pub fn center_on_face(center: Point, face: Face) -> Option<Proximity>
    ensures { result ≡ center_on_face center face }
{
    if !on_span(along(center, face)) {
        return None;
    }
    let n = face.normal.vector();
    let normal = Dir::new(-n.x, -n.y)?;
    let gap = dot(sub(center, face.a), n);
    let half = 0.5 * gap;
    Some(Proximity {
        gap,
        normal,
        point: Point {
            x: center.x - half * n.x,
            y: center.y - half * n.y,
        },
    })
}

impl Proximity {
    // The same meeting with the two sides exchanged.
    #[tactic(auto, unfolding(crate::specs::Signed::reversed_of))]
    pub fn reversed(self) -> Proximity
        ensures { result ≡ reversed_of self }
    {
        let n = self.normal;
        Proximity {
            normal: Dir::new(-n.x, -n.y).unwrap_or(n),
            ..self
        }
    }

    // The point of side A's surface.
    pub fn on_a(self) -> Point
        ensures { result ≡ on_a self }
    {
        let n = self.normal;
        let p = self.point;
        let h = 0.5 * self.gap;
        Point {
            x: p.x + h * n.x,
            y: p.y + h * n.y,
        }
    }

    // The point of side B's surface.
    pub fn on_b(self) -> Point
        ensures { result ≡ on_b self }
    {
        let n = self.normal;
        let p = self.point;
        let h = 0.5 * self.gap;
        Point {
            x: p.x - h * n.x,
            y: p.y - h * n.y,
        }
    }
}

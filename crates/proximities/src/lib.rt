// One reading of two features at a pose, and candidates in lent arrays (contact/rows.rs: `turned`, `world_face`, `world_disc`, `real`).
#![tactic(auto)]

ghost use Rattle.std.specs.Prelude.{◌≡◌, ◌+◌, ◌<◌, length};
ghost use Rattle.geometry.specs.Signed.{disc_on_face, center_on_face, on_a, on_b};
ghost use Rattle.material.specs.Material.{drawn_material};
ghost use Rattle.proximities.specs.Proximities.{turned_of, world_face, world_disc, is_deep, real_of, center_real, kept_if, exchanged, reading_at, found_deep, blank_candidate, Written};

use bodies::pose::Placement;
use geometry::signed::{Disc, Face, Proximity};
use geometry::{Dir, Point};
use material::DrawnMaterial;
use mechanism::features::Piece;

// A reading of two pieces, and which of them decides: 1 side A's, 2 side B's, 0 none.
#[derive(Clone, Copy)]
pub struct Candidate {
    pub a: Piece,
    pub b: Piece,
    pub who: usize,
    pub near: Proximity,
}

// ---- features in the world

#[tactic(auto, unfolding(crate::specs::Proximities::turned_of))]
fn turned(place: Placement, d: Dir) -> Dir
    ensures { result ≡ turned_of place d }
{
    if place.is_world() {
        return d;
    }
    let v = place.rotate(d.vector());
    Dir::new(v.x, v.y).unwrap_or(d)
}

pub fn world_face(place: Placement, f: Face) -> Face
    ensures { result ≡ world_face place f }
{
    Face {
        a: place.world(f.a),
        b: place.world(f.b),
        normal: turned(place, f.normal),
    }
}

pub fn world_disc(place: Placement, d: Disc) -> Disc
    ensures { result ≡ world_disc place d }
{
    Disc {
        center: place.world(d.center),
        radius: d.radius,
        from: turned(place, d.from),
        to: turned(place, d.to),
    }
}

// ---- candidates in a lent array

// What fills an array that candidates will be written to: zeros throughout, which are cheap to write.
pub fn blank_candidate() -> Candidate
    ensures { result ≡ blank_candidate }
{
    let blank = Piece::Segment { part: 0, seg: 0 };
    Candidate {
        a: blank,
        b: blank,
        who: 0,
        near: Proximity {
            gap: 0.0,
            normal: Dir { x: 0.0, y: 0.0 },
            point: Point { x: 0.0, y: 0.0 },
        },
    }
}

// Writes a candidate at `at`, where something is read and the array has room for it.
pub fn put_candidate(
    out: &mut [Candidate],
    at: usize,
    a: Piece,
    b: Piece,
    who: usize,
    found: Option<Proximity>,
) -> usize
    ensures { Written (reading_at (length out.old) at a b who found) at result out.old out.new }
{
    match found {
        Some(near) if at < out.len() => {
            out[at] = Candidate { a, b, who, near };
            at + 1
        }
        _ => at,
    }
}

// ---- one reading, where it counts

fn is_deep(gap: f64) -> bool
    ensures { result ≡ is_deep gap }
{
    !(-0.001 <= gap)
}

// Whether a reading counts: not a deep one, or one whose point the material holds.
fn real(m: &DrawnMaterial, gap: f64, p: Point) -> bool
    ensures { result ≡ real_of (drawn_material m.now) gap p }
{
    !is_deep(gap) || m.holds(p)
}

// Side A's disc on side B's face.
pub fn on_face_b(m: &DrawnMaterial, d: Disc, f: Face) -> Option<Proximity>
    ensures { result ≡ kept_if (λ x. real_of (drawn_material m.now) x.gap (on_a x)) (disc_on_face d f) }
{
    let near = geometry::signed::disc_on_face(d, f)?;
    real(m, near.gap, near.on_a()).then_some(near)
}

// Side B's disc on side A's face, read from A.
pub fn on_face_a(m: &DrawnMaterial, d: Disc, f: Face) -> Option<Proximity>
    ensures { result ≡ kept_if (λ x. real_of (drawn_material m.now) x.gap (on_b x)) (exchanged (disc_on_face d f)) }
{
    let near = geometry::signed::disc_on_face(d, f)?.reversed();
    real(m, near.gap, near.on_b()).then_some(near)
}

// ---- the centre of side B on a face of side A

fn center_real(m: &DrawnMaterial, p: Point, gap: f64) -> bool
    ensures { result ≡ center_real (drawn_material m.now) p gap }
{
    !is_deep(gap) || -gap - 0.001 <= m.depth(p)
}

pub fn center_on(m: &DrawnMaterial, c: Point, f: Face) -> Option<Proximity>
    ensures { result ≡ kept_if (λ x. center_real (drawn_material m.now) c x.gap) (center_on_face c f) }
{
    let near = geometry::signed::center_on_face(c, f)?;
    center_real(m, c, near.gap).then_some(near)
}

// ---- whether the material is asked for

pub fn found_deep(found: Option<Proximity>) -> bool
    ensures { result ≡ found_deep found }
{
    found.is_some_and(|x| is_deep(x.gap))
}

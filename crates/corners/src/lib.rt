// The face of a segment, its normals, and the disc of an arc or of a convex corner (contact/features.rs).
#![tactic(auto)]

ghost use Rattle.std.specs.Prelude.{◌≡◌};
ghost use Rattle.corners.specs.Corners.{right_of, normal_of, ends_normals, face_of, convex_of, vertex_of, run_back, arc_of, corner_of};

use geometry::signed::{Disc, Face};
use geometry::{Dir, Point, Seg};

// ---- normals, faces, vertices

fn right_of(d: Option<Dir>) -> Option<Dir>
    ensures { result ≡ right_of d }
{
    let v = d?;
    Dir::new(v.y, -v.x)
}

#[tactic(auto, unfolding(crate::specs::Corners::normal_of))]
fn normal(a: Point, b: Point) -> Option<Dir>
    ensures { result ≡ normal_of a b }
{
    right_of(Dir::new(b.x - a.x, b.y - a.y))
}

// The normals at a segment's start and at its end.
#[tactic(auto, unfolding(crate::specs::Corners::ends_normals))]
fn ends_normals(seg: Seg) -> Option<(Dir, Dir)>
    ensures { result ≡ ends_normals seg }
{
    match seg {
        Seg::Line { a, b } => {
            let n = normal(a, b)?;
            Some((n, n))
        }
        Seg::Arc { from, to, .. } => Some((from, to)),
    }
}

#[tactic(auto, unfolding(crate::specs::Corners::face_of))]
pub fn face(seg: Seg) -> Option<Face>
    ensures { result ≡ face_of seg }
{
    match seg {
        Seg::Line { a, b } => {
            let normal = normal(a, b)?;
            Some(Face { a, b, normal })
        }
        Seg::Arc { .. } => None,
    }
}

#[tactic(auto, unfolding(crate::specs::Corners::convex_of))]
fn convex(from: Dir, to: Dir) -> bool
    ensures { result ≡ convex_of from to }
{
    let turn = from.x * to.y - from.y * to.x;
    let back = from.x * to.x + from.y * to.y;
    (turn > 0.0) | ((turn == 0.0) & (back < 0.0))
}

#[tactic(auto, unfolding(crate::specs::Corners::vertex_of))]
pub fn vertex(previous: Seg, next: Seg) -> Option<Disc>
    ensures { result ≡ vertex_of previous next }
{
    let (_, from) = ends_normals(previous)?;
    let (to, _) = ends_normals(next)?;
    if convex(from, to) {
        Some(Disc {
            center: next.start(),
            radius: 0.0,
            from,
            to,
        })
    } else {
        None
    }
}

// ---- the other way round, arcs and corners

pub fn run_back(seg: Seg) -> Option<Seg>
    ensures { result ≡ run_back seg }
{
    match seg {
        Seg::Line { a, b } => Some(Seg::Line { a: b, b: a }),
        Seg::Arc { .. } => None,
    }
}

pub fn arc(cut: bool, seg: Seg) -> Option<Disc>
    ensures { result ≡ arc_of cut seg }
{
    if cut {
        return None;
    }
    match seg {
        Seg::Arc { c, r, from, to } => Some(Disc {
            center: c,
            radius: r,
            from,
            to,
        }),
        Seg::Line { .. } => None,
    }
}

pub fn corner(previous: Option<Seg>, seg: Seg) -> Option<Disc>
    ensures { result ≡ corner_of previous seg }
{
    vertex(previous?, seg)
}

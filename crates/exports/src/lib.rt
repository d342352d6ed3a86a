// Functions for a caller in Rust or C, on plain numbers: for the comparisons in oracle/ and bench/.
// Where an answer has several floats, `n` says which is wanted: 0 is 1.0 where there is an answer and 0.0 where there is none, then the floats in the order of the fields.
#![tactic(auto)]

ghost use Rattle.std.specs.Prelude.{◌≡◌};
ghost use Rattle.ieee.specs.Root.{root_of};
ghost use Rattle.geometry.specs.Geometry.{dir_of, halfway_of, drawn_of};
ghost use Rattle.geometry.specs.Signed.{in_sector, disc_on_face, disc_on_disc, center_on_face};
ghost use Rattle.exports.specs.Fields.{point_at, dir_at, disc_at, face_at, of_two, of_five, dir_field, proximity_field, drawn_field, meeting_field, arc_at, proximity_at};

use geometry::signed::{Disc, Face, Proximity};
use geometry::{Dir, Drawn, Point, Seg};

fn of_two(n: u64, x: f64, y: f64) -> f64
    ensures { result ≡ of_two n x y }
{
    match n {
        1 => x,
        2 => y,
        _ => 0.0,
    }
}

fn of_five(n: u64, a: f64, b: f64, c: f64, d: f64, e: f64) -> f64
    ensures { result ≡ of_five n a b c d e }
{
    match n {
        1 => a,
        2 => b,
        3 => c,
        4 => d,
        5 => e,
        _ => 0.0,
    }
}

#[tactic(auto, unfolding(crate::specs::Fields::dir_field))]
fn dir_field(found: Option<Dir>, n: u64) -> f64
    ensures { result ≡ dir_field found n }
{
    match found {
        Some(_) if n == 0 => 1.0,
        Some(d) => of_two(n, d.x, d.y),
        None => 0.0,
    }
}

#[tactic(auto, unfolding(crate::specs::Fields::proximity_field))]
fn proximity_field(found: Option<Proximity>, n: u64) -> f64
    ensures { result ≡ proximity_field found n }
{
    match found {
        Some(_) if n == 0 => 1.0,
        Some(p) => of_five(n, p.gap, p.normal.x, p.normal.y, p.point.x, p.point.y),
        None => 0.0,
    }
}

// Coordinate n of the eight points that an arc is drawn through.
#[tactic(auto, unfolding(crate::specs::Fields::drawn_field))]
fn drawn_field(drawn: Drawn, n: u64) -> f64
    ensures { result ≡ drawn_field drawn n }
{
    let p = drawn.points[(n / 2 % 8) as usize];
    if n % 2 == 0 { p.x } else { p.y }
}

// Of a meeting turned round the gap, the normal and the point, by 1 to 5; of its surface points, A's by 6 and 7, B's by 8 and 9.
#[tactic(auto, unfolding(crate::specs::Fields::meeting_field))]
fn meeting_field(p: Proximity, n: u64) -> f64
    ensures { result ≡ meeting_field p n }
{
    match n {
        6 => p.on_a().x,
        7 => p.on_a().y,
        8 => p.on_b().x,
        9 => p.on_b().y,
        _ => proximity_field(Some(p.reversed()), n),
    }
}

fn disc_at(cx: f64, cy: f64, r: f64, fx: f64, fy: f64, tx: f64, ty: f64) -> Disc
    ensures { result ≡ disc_at cx cy r fx fy tx ty }
{
    Disc {
        center: Point { x: cx, y: cy },
        radius: r,
        from: Dir { x: fx, y: fy },
        to: Dir { x: tx, y: ty },
    }
}

fn face_at(ax: f64, ay: f64, bx: f64, by: f64, nx: f64, ny: f64) -> Face
    ensures { result ≡ face_at ax ay bx by nx ny }
{
    Face {
        a: Point { x: ax, y: ay },
        b: Point { x: bx, y: by },
        normal: Dir { x: nx, y: ny },
    }
}

#[unsafe(no_mangle)]
pub extern "C" fn sewqirun_root(x: f64) -> f64
    ensures { result ≡ root_of x }
{
    ieee::root::root(x)
}

#[unsafe(no_mangle)]
pub extern "C" fn sewqirun_dir(n: u64, x: f64, y: f64) -> f64
    ensures { result ≡ dir_field (dir_of x y) n }
{
    dir_field(Dir::new(x, y), n)
}

#[unsafe(no_mangle)]
pub extern "C" fn sewqirun_halfway(n: u64, fx: f64, fy: f64, tx: f64, ty: f64) -> f64
    ensures { result ≡ of_two n (halfway_of (dir_at fx fy) (dir_at tx ty)).x (halfway_of (dir_at fx fy) (dir_at tx ty)).y }
{
    let from = Dir { x: fx, y: fy };
    let d = from.halfway_to(Dir { x: tx, y: ty });
    of_two(n, d.x, d.y)
}

#[unsafe(no_mangle)]
pub extern "C" fn sewqirun_in_sector(ux: f64, uy: f64, fx: f64, fy: f64, tx: f64, ty: f64) -> bool
    ensures { result ≡ in_sector (point_at ux uy) (dir_at fx fy) (dir_at tx ty) }
{
    geometry::signed::in_sector(
        Point { x: ux, y: uy },
        Dir { x: fx, y: fy },
        Dir { x: tx, y: ty },
    )
}

#[unsafe(no_mangle)]
pub extern "C" fn sewqirun_disc_on_face(
    n: u64,
    cx: f64,
    cy: f64,
    r: f64,
    fx: f64,
    fy: f64,
    tx: f64,
    ty: f64,
    ax: f64,
    ay: f64,
    bx: f64,
    by: f64,
    nx: f64,
    ny: f64,
) -> f64
    ensures { result ≡ proximity_field (disc_on_face (disc_at cx cy r fx fy tx ty) (face_at ax ay bx by nx ny)) n }
{
    let disc = disc_at(cx, cy, r, fx, fy, tx, ty);
    proximity_field(
        geometry::signed::disc_on_face(disc, face_at(ax, ay, bx, by, nx, ny)),
        n,
    )
}

#[unsafe(no_mangle)]
pub extern "C" fn sewqirun_disc_on_disc(
    n: u64,
    cx: f64,
    cy: f64,
    r: f64,
    fx: f64,
    fy: f64,
    tx: f64,
    ty: f64,
    dx: f64,
    dy: f64,
    s: f64,
    gx: f64,
    gy: f64,
    ux: f64,
    uy: f64,
) -> f64
    ensures { result ≡ proximity_field (disc_on_disc (disc_at cx cy r fx fy tx ty) (disc_at dx dy s gx gy ux uy)) n }
{
    let a = disc_at(cx, cy, r, fx, fy, tx, ty);
    proximity_field(
        geometry::signed::disc_on_disc(a, disc_at(dx, dy, s, gx, gy, ux, uy)),
        n,
    )
}

#[unsafe(no_mangle)]
pub extern "C" fn sewqirun_center_on_face(
    n: u64,
    cx: f64,
    cy: f64,
    ax: f64,
    ay: f64,
    bx: f64,
    by: f64,
    nx: f64,
    ny: f64,
) -> f64
    ensures { result ≡ proximity_field (center_on_face (point_at cx cy) (face_at ax ay bx by nx ny)) n }
{
    let center = Point { x: cx, y: cy };
    proximity_field(
        geometry::signed::center_on_face(center, face_at(ax, ay, bx, by, nx, ny)),
        n,
    )
}

#[unsafe(no_mangle)]
pub extern "C" fn sewqirun_drawn(
    n: u64,
    cx: f64,
    cy: f64,
    r: f64,
    fx: f64,
    fy: f64,
    tx: f64,
    ty: f64,
) -> f64
    ensures { result ≡ drawn_field (drawn_of (arc_at cx cy r fx fy tx ty)) n }
{
    let arc = Seg::Arc {
        c: Point { x: cx, y: cy },
        r,
        from: Dir { x: fx, y: fy },
        to: Dir { x: tx, y: ty },
    };
    drawn_field(arc.drawn(), n)
}

#[unsafe(no_mangle)]
pub extern "C" fn sewqirun_meeting(n: u64, gap: f64, nx: f64, ny: f64, px: f64, py: f64) -> f64
    ensures { result ≡ meeting_field (proximity_at gap nx ny px py) n }
{
    let normal = Dir { x: nx, y: ny };
    let point = Point { x: px, y: py };
    meeting_field(Proximity { gap, normal, point }, n)
}

// The functions of `exports` for callers in C and Rust, as a static library: each has the clauses of the one that it calls.
#![tactic(auto)]

ghost use Rattle.std.specs.Prelude.{◌≡◌};
ghost use Rattle.ieee.specs.Root.{root_of};
ghost use Rattle.geometry.specs.Geometry.{dir_of, halfway_of, drawn_of};
ghost use Rattle.geometry.specs.Signed.{in_sector, disc_on_face, disc_on_disc, center_on_face};
ghost use Rattle.exports.specs.Fields.{point_at, dir_at, disc_at, face_at, of_two, dir_field, proximity_field, drawn_field, meeting_field, arc_at, proximity_at};

// `exports::sewqirun_root`.
#[unsafe(no_mangle)]
pub extern "C" fn sewqirun_root(x: f64) -> f64
    ensures { result ≡ root_of x }
{
    exports::sewqirun_root(x)
}

// `exports::sewqirun_dir`.
#[unsafe(no_mangle)]
pub extern "C" fn sewqirun_dir(n: u64, x: f64, y: f64) -> f64
    ensures { result ≡ dir_field (dir_of x y) n }
{
    exports::sewqirun_dir(n, x, y)
}

// `exports::sewqirun_halfway`.
#[unsafe(no_mangle)]
pub extern "C" fn sewqirun_halfway(n: u64, fx: f64, fy: f64, tx: f64, ty: f64) -> f64
    ensures { result ≡ of_two n (halfway_of (dir_at fx fy) (dir_at tx ty)).x (halfway_of (dir_at fx fy) (dir_at tx ty)).y }
{
    exports::sewqirun_halfway(n, fx, fy, tx, ty)
}

// `exports::sewqirun_in_sector`.
#[unsafe(no_mangle)]
pub extern "C" fn sewqirun_in_sector(ux: f64, uy: f64, fx: f64, fy: f64, tx: f64, ty: f64) -> bool
    ensures { result ≡ in_sector (point_at ux uy) (dir_at fx fy) (dir_at tx ty) }
{
    exports::sewqirun_in_sector(ux, uy, fx, fy, tx, ty)
}

// `exports::sewqirun_disc_on_face`.
#[unsafe(no_mangle)]
pub extern "C" fn sewqirun_disc_on_face(
    n: u64,
    cx: f64,
    cy: f64,
    r: f64,
    fx: f64,
    fy: f64,
    tx: f64,
    ty: f64,
    ax: f64,
    ay: f64,
    bx: f64,
    by: f64,
    nx: f64,
    ny: f64,
) -> f64
    ensures { result ≡ proximity_field (disc_on_face (disc_at cx cy r fx fy tx ty) (face_at ax ay bx by nx ny)) n }
{
    exports::sewqirun_disc_on_face(n, cx, cy, r, fx, fy, tx, ty, ax, ay, bx, by, nx, ny)
}

// `exports::sewqirun_disc_on_disc`.
#[unsafe(no_mangle)]
pub extern "C" fn sewqirun_disc_on_disc(
    n: u64,
    cx: f64,
    cy: f64,
    r: f64,
    fx: f64,
    fy: f64,
    tx: f64,
    ty: f64,
    dx: f64,
    dy: f64,
    s: f64,
    gx: f64,
    gy: f64,
    ux: f64,
    uy: f64,
) -> f64
    ensures { result ≡ proximity_field (disc_on_disc (disc_at cx cy r fx fy tx ty) (disc_at dx dy s gx gy ux uy)) n }
{
    exports::sewqirun_disc_on_disc(n, cx, cy, r, fx, fy, tx, ty, dx, dy, s, gx, gy, ux, uy)
}

// `exports::sewqirun_center_on_face`.
#[unsafe(no_mangle)]
pub extern "C" fn sewqirun_center_on_face(
    n: u64,
    cx: f64,
    cy: f64,
    ax: f64,
    ay: f64,
    bx: f64,
    by: f64,
    nx: f64,
    ny: f64,
) -> f64
    ensures { result ≡ proximity_field (center_on_face (point_at cx cy) (face_at ax ay bx by nx ny)) n }
{
    exports::sewqirun_center_on_face(n, cx, cy, ax, ay, bx, by, nx, ny)
}

// `exports::sewqirun_drawn`.
#[unsafe(no_mangle)]
pub extern "C" fn sewqirun_drawn(
    n: u64,
    cx: f64,
    cy: f64,
    r: f64,
    fx: f64,
    fy: f64,
    tx: f64,
    ty: f64,
) -> f64
    ensures { result ≡ drawn_field (drawn_of (arc_at cx cy r fx fy tx ty)) n }
{
    exports::sewqirun_drawn(n, cx, cy, r, fx, fy, tx, ty)
}

// `exports::sewqirun_meeting`.
#[unsafe(no_mangle)]
pub extern "C" fn sewqirun_meeting(n: u64, gap: f64, nx: f64, ny: f64, px: f64, py: f64) -> f64
    ensures { result ≡ meeting_field (proximity_at gap nx ny px py) n }
{
    exports::sewqirun_meeting(n, gap, nx, ny, px, py)
}

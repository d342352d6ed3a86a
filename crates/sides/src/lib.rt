// The features of a side, read from the drawn outlines in its body's frame (contact/features.rs).
#![tactic(auto)]

ghost use Rattle.std.specs.Prelude.{◌≡◌, map, reverse, ◌+◌, ◌-◌, ◌<◌, ◌≤◌, length, replicate, option_to_list, Some};
ghost use Rattle.std.proofs.lemmas.List.Edits.{sets};
ghost use Rattle.laws.specs.Fill.{range, filled};
ghost use Rattle.laws.specs.Loops.{join_in};
ghost use Rattle.geometry.specs.Geometry.{start_of};
ghost use Rattle.mechanism.specs.Check.{FewParts};
ghost use Rattle.mechanism.specs.declared.features.Piece.TheVariants as Piece;
ghost use Rattle.mechanism.specs.Segments.{outlines_in};
ghost use Rattle.silhouette.specs.Silhouette.{segs_in, axis_of, silhouette_from};
ghost use Rattle.sides.specs.Features.{forward_step, backward_step, forward_of, backward_of, traverse_of, seg_in, placed_disc, faces_of_seg, discs_of_seg, faces_at, discs_at, first_seg, last_seg};
ghost use Rattle.sides.specs.Features.{meets, previous_at, range_faces, range_discs, step_discs, end_discs, last_before, first_after, faces_of, discs_of, crossing_of, middle_of, on_axis, center_of};
ghost use Rattle.sides.specs.Features.{center_at, traversal_of, traversals_of, run_of, steps_in, runs_in, no_face, no_disc, Grown, side_of, center_of_side};
ghost use Rattle.sides.specs.Bounds.{Runs, DrawnRange, DrawnSide};

pub mod contacts;
pub mod held;

use bodies::pose::MaterialPoint;
use corners::{arc, corner, face, run_back, vertex};
use geometry::signed::{Disc, Face};
use geometry::{Dir, Point, Seg};
use ieee::num::same;
use mechanism::check::{same_point, segs_counted, side_drawn};
use mechanism::features::Piece;
use mechanism::pair::Surface;
use mechanism::part::{OutlineSeg, Part, Role, SurfaceRef, Sweep};
use mechanism::segments::{SegRow, put_segs};
use mechanism::{Outlines, Parts};
use silhouette::rows::silhouette_seg;
use silhouette::{SilhouetteSegs, axis, silhouette_at, start_of_part};

#[derive(Clone, Copy)]
pub struct PlacedFace {
    pub piece: Piece,
    pub face: Face,
}

#[derive(Clone, Copy)]
pub struct PlacedDisc {
    pub piece: Piece,
    pub disc: Disc,
}

#[derive(Clone, Copy)]
pub struct PlacedPoint {
    pub piece: Piece,
    pub point: Point,
}

// A segment as the material runs, its number in the silhouette, and the number of the segment that is drawn from where it starts.
#[derive(Clone, Copy)]
struct Step {
    named: usize,
    starts: usize,
    seg: Option<Seg>,
}

#[derive(Clone, Copy)]
struct Steps {
    count: usize,
    step: [Step; 12],
}

// One range, as the material that it bounds runs.
#[derive(Clone, Copy)]
struct Traversal {
    part: usize,
    cut: bool,
    count: usize,
    steps: [Step; 12],
    before: Option<Seg>,
    after: Option<Seg>,
    wrapped: bool,
    ends: usize,
}

#[derive(Clone, Copy)]
struct Traversals {
    count: usize,
    traversal: [Traversal; 4],
}

// Faces and discs as they are found.
#[derive(Clone, Copy)]
struct Features {
    faces: usize,
    face: [PlacedFace; 12],
    discs: usize,
    disc: [PlacedDisc; 28],
}

// One side of a pair, in its body's frame: its straight segments, its arcs and convex vertices, and the centre of its drawn face.
#[derive(Clone, Copy)]
pub struct SideFeatures {
    pub body: usize,
    pub faces: usize,
    pub face: [PlacedFace; 12],
    pub discs: usize,
    pub disc: [PlacedDisc; 28],
    pub center: PlacedPoint,
}

// ---- one range, as the material that it bounds runs

fn forward_steps(first: usize, past: usize, sil: SilhouetteSegs) -> Steps
    requires { (first < past) × (past ≤ sil.count) × (sil.count ≤ 94) × (past - first ≤ 12) }
    ensures { (result.count ≡ past - first) × (steps_in result ≡ map (forward_step (segs_in sil)) (range first past)) }
{
    let blank = Step {
        named: 0,
        starts: 0,
        seg: None,
    };
    let mut all = [blank; 12];
    for i in first..past {
        let at = i % sil.count;
        all[i - first] = Step {
            named: at,
            starts: at,
            seg: Some(sil.seg[i].seg),
        };
    }
    Steps {
        count: past - first,
        step: all,
    }
}

fn backward_steps(first: usize, past: usize, sil: SilhouetteSegs) -> Steps
    requires { (first < past) × (past ≤ sil.count) × (sil.count ≤ 94) × (past - first ≤ 12) }
    ensures { (result.count ≡ past - first) × (steps_in result ≡ map (backward_step (segs_in sil)) (reverse (range first past))) }
{
    let blank = Step {
        named: 0,
        starts: 0,
        seg: None,
    };
    let mut all = [blank; 12];
    for k in 0..past - first {
        let i = past - 1 - k;
        all[k] = Step {
            named: i % sil.count,
            starts: (i + 1) % sil.count,
            seg: run_back(sil.seg[i].seg),
        };
    }
    Steps {
        count: past - first,
        step: all,
    }
}

fn forward(range: SurfaceRef, sil: SilhouetteSegs) -> Traversal
    requires { (range.start < range.end) × (range.end ≤ sil.count) × (sil.count ≤ 94) × (range.end - range.start ≤ 12) }
    ensures { run_of result ≡ forward_of range (segs_in sil) }
{
    let first = range.start;
    let past = range.end;
    let n = sil.count;
    let i = (first + n - 1) % n;
    let j = past % n;
    let p = sil.seg[i];
    let b = p.seg;
    let q = sil.seg[j];
    let a = q.seg;
    let s = forward_steps(first, past, sil);
    let all = s.step;
    Traversal {
        part: range.part,
        cut: false,
        count: s.count,
        steps: all,
        before: Some(b),
        after: Some(a),
        wrapped: past - first == n,
        ends: j,
    }
}

fn backward(range: SurfaceRef, sil: SilhouetteSegs) -> Traversal
    requires { (range.start < range.end) × (range.end ≤ sil.count) × (sil.count ≤ 94) × (range.end - range.start ≤ 12) }
    ensures { run_of result ≡ backward_of range (segs_in sil) }
{
    let first = range.start;
    let past = range.end;
    let n = sil.count;
    let i = (first + n - 1) % n;
    let j = past % n;
    let p = sil.seg[i];
    let a = p.seg;
    let q = sil.seg[j];
    let b = q.seg;
    let s = backward_steps(first, past, sil);
    let all = s.step;
    Traversal {
        part: range.part,
        cut: true,
        count: s.count,
        steps: all,
        before: run_back(b),
        after: run_back(a),
        wrapped: past - first == n,
        ends: range.start,
    }
}

fn traverse(range: SurfaceRef, sil: SilhouetteSegs, role: Role) -> Traversal
    requires { (range.start < range.end) × (range.end ≤ sil.count) × (sil.count ≤ 94) × (range.end - range.start ≤ 12) }
    ensures { run_of result ≡ traverse_of range (segs_in sil) role }
{
    match role {
        Role::Cut => backward(range, sil),
        Role::Solid | Role::Lining => forward(range, sil),
    }
}

// ---- one segment's features

// One more behind the first n of a list, where there is one.
fn add<T: Copy, const N: usize>(list: &mut [T; N], n: &mut usize, m: Option<T>)
    requires { n.old < N }
    ensures all { list.new ≡ sets list.old n.old (option_to_list m) }
    ensures more { n.new ≡ n.old + length (option_to_list m) }
{
    if let Some(x) = m {
        list[*n] = x;
        *n += 1;
    }
}

fn read_seg(
    f: Features,
    part: usize,
    cut: bool,
    named: usize,
    starts: usize,
    previous: Option<Seg>,
    seg: Seg,
) -> Features
    requires { (f.faces < 12) × (f.discs + 2 ≤ 28) }
    ensures { Grown f result (faces_of_seg part named (Some seg)) (discs_of_seg part cut named starts previous (Some seg)) }
{
    let mut g = f;
    let piece = Piece::Segment { part, seg: named };
    add(
        &mut g.face,
        &mut g.faces,
        face(seg).map(|face| PlacedFace { piece, face }),
    );
    let piece = Piece::Arc { part, seg: named };
    add(
        &mut g.disc,
        &mut g.discs,
        arc(cut, seg).map(|disc| PlacedDisc { piece, disc }),
    );
    let piece = Piece::Vertex { part, seg: starts };
    add(
        &mut g.disc,
        &mut g.discs,
        corner(previous, seg).map(|disc| PlacedDisc { piece, disc }),
    );
    g
}

fn read_step(f: Features, part: usize, cut: bool, previous: Option<Seg>, s: Step) -> Features
    requires { (f.faces < 12) × (f.discs + 2 ≤ 28) }
    ensures { Grown f result (faces_at part s) (discs_at part cut previous s) }
{
    match s.seg {
        Some(g) => read_seg(f, part, cut, s.named, s.starts, previous, g),
        None => f,
    }
}

// ---- one range's features

fn first_seg(t: Traversal) -> Option<Seg>
    requires { 0 < t.count }
    ensures { result ≡ first_seg (run_of t) }
{
    t.steps[0].seg
}

fn last_seg(t: Traversal) -> Option<Seg>
    requires { (0 < t.count) × (t.count ≤ 12) }
    ensures { result ≡ last_seg (run_of t) }
{
    t.steps[t.count - 1].seg
}

fn meet(last: Option<Seg>, next: Option<Seg>) -> bool
    ensures { result ≡ meets last next }
{
    match (last, next) {
        (Some(p), Some(q)) => same_point(p.end(), q.start()),
        _ => false,
    }
}

fn previous_at(t: Traversal, first: Option<Seg>, i: usize) -> Option<Seg>
    requires { (i < t.count) × (t.count ≤ 12) }
    ensures { result ≡ previous_at (run_of t) first i }
{
    if i > 0 { t.steps[i - 1].seg } else { first }
}

fn read_steps(f: Features, t: Traversal, first: Option<Seg>) -> Features
    requires { (t.count ≤ 12) × (f.faces + t.count ≤ 12) × (f.faces + f.discs + t.count + t.count ≤ 28) }
    ensures { Grown f result (range_faces (run_of t)) (join_in (step_discs (run_of t) first) t.count 0) }
{
    let mut g = f;
    for i in 0..t.count {
        g = read_step(g, t.part, t.cut, previous_at(t, first, i), t.steps[i]);
    }
    g
}

#[tactic(auto, unfolding(crate::specs::Features::end_discs))]
fn end_disc(t: Traversal, next: Option<Seg>) -> Option<Disc>
    requires { (0 < t.count) × (t.count ≤ 12) }
    ensures { placed_disc (Piece.Vertex t.part t.ends) result ≡ end_discs (run_of t) next }
{
    let last = last_seg(t);
    if meet(last, next) | t.wrapped {
        return None;
    }
    corner(last, t.after?)
}

fn read_range(f: Features, t: Traversal, last: Option<Seg>, next: Option<Seg>) -> Features
    requires { (0 < t.count) × (t.count ≤ 12) × (f.faces + t.count ≤ 12) × (f.faces + f.discs + t.count + t.count + 1 ≤ 28) }
    ensures { Grown f result (range_faces (run_of t)) (range_discs (run_of t) last next) }
{
    let first = if meet(last, first_seg(t)) {
        last
    } else {
        t.before
    };
    let mut g = read_steps(f, t, first);
    let piece = Piece::Vertex {
        part: t.part,
        seg: t.ends,
    };
    add(
        &mut g.disc,
        &mut g.discs,
        end_disc(t, next).map(|disc| PlacedDisc { piece, disc }),
    );
    g
}

// ---- a side's features

fn last_before(ts: Traversals, k: usize) -> Option<Seg>
    requires { (k < ts.count) × (ts.count ≤ 4) × Runs (runs_in ts) }
    ensures { result ≡ last_before (runs_in ts) k }
{
    if k > 0 {
        last_seg(ts.traversal[k - 1])
    } else {
        None
    }
}

fn first_after(ts: Traversals, k: usize) -> Option<Seg>
    requires { (k < ts.count) × (ts.count ≤ 4) × Runs (runs_in ts) }
    ensures { result ≡ first_after (runs_in ts) k }
{
    let i = k + 1;
    if i < ts.count {
        first_seg(ts.traversal[i])
    } else {
        None
    }
}

// A face that is not there.
pub fn no_face() -> PlacedFace
    ensures { result ≡ no_face }
{
    let o = Point { x: 0.0, y: 0.0 };
    PlacedFace {
        piece: Piece::Center { part: 0 },
        face: Face {
            a: o,
            b: o,
            normal: Dir { x: 0.0, y: 0.0 },
        },
    }
}

// A disc that is not there.
pub fn no_disc() -> PlacedDisc
    ensures { result ≡ no_disc }
{
    let d = Dir { x: 0.0, y: 0.0 };
    PlacedDisc {
        piece: Piece::Center { part: 0 },
        disc: Disc {
            center: Point { x: 0.0, y: 0.0 },
            radius: 0.0,
            from: d,
            to: d,
        },
    }
}

fn no_features() -> Features
    ensures { (result.faces ≡ 0) × (result.discs ≡ 0) × (result.face ≡ replicate 12 no_face) × (result.disc ≡ replicate 28 no_disc) }
{
    Features {
        faces: 0,
        face: [no_face(); 12],
        discs: 0,
        disc: [no_disc(); 28],
    }
}

fn read_all(ts: Traversals) -> Features
    requires { (ts.count ≤ 4) × Runs (runs_in ts) }
    ensures faces { (result.faces ≡ length (faces_of (runs_in ts))) × (result.face ≡ filled 12 no_face (faces_of (runs_in ts))) }
    ensures discs { (result.discs ≡ length (discs_of (runs_in ts))) × (result.disc ≡ filled 28 no_disc (discs_of (runs_in ts))) }
{
    let mut f = no_features();
    for k in 0..ts.count {
        f = read_range(f, ts.traversal[k], last_before(ts, k), first_after(ts, k));
    }
    f
}

// ---- the centre of a side's drawn face

// The first start on the axis among the segments `from` to `past`, the last left out, of the silhouette of a part whose outline starts in row `first`.
fn crossing(
    segs: &[SegRow],
    first: usize,
    p: Part,
    from: usize,
    past: usize,
    axis: f64,
) -> Option<Point>
    ensures { result ≡ crossing_of axis (map (λ i. start_of (seg_in (silhouette_from (outlines_in segs.now) first p) i)) (range from past)) }
{
    for i in from..past {
        let q = silhouette_seg(segs, first, p, i).start();
        if same(q.x, axis) {
            return Some(q);
        }
    }
    None
}

fn on_axis(
    wanted: bool,
    about: Option<f64>,
    segs: &[SegRow],
    first: usize,
    p: Part,
    range: SurfaceRef,
) -> Option<Point>
    requires { range.start < range.end }
    ensures { result ≡ on_axis wanted about (silhouette_from (outlines_in segs.now) first p) range }
{
    if !wanted {
        return None;
    }
    crossing(segs, first, p, range.start + 1, range.end, about?)
}

fn middle(p: Point, q: Point) -> Point
    ensures { result ≡ middle_of p q }
{
    Point {
        x: 0.5 * (p.x + q.x),
        y: 0.5 * (p.y + q.y),
    }
}

// The centre of a side whose first range is of the part p, with its outline from row `first` on, and its last range of the part q, with its outline from row `last` on.
#[tactic(auto, unfolding(crate::specs::Features::center_of))]
fn center(
    wanted: bool,
    segs: &[SegRow],
    first: usize,
    p: Part,
    front: SurfaceRef,
    last: usize,
    q: Part,
    back: SurfaceRef,
) -> Point
    requires { (front.start < front.end) × (back.start < back.end) }
    ensures { result ≡ center_of wanted (axis_of p.sweep) (silhouette_from (outlines_in segs.now) first p) front (silhouette_from (outlines_in segs.now) last q) back }
{
    let a = silhouette_seg(segs, first, p, front.start);
    let b = silhouette_seg(segs, last, q, back.end - 1);
    on_axis(wanted, axis(p.sweep), segs, first, p, front).unwrap_or(middle(a.start(), b.end()))
}

// ---- from the description

fn traversal_of(ps: Parts, o: Outlines, range: SurfaceRef) -> Traversal
    requires { FewParts ps × DrawnRange ps range }
    ensures { run_of result ≡ traversal_of ps o range }
{
    let sil = silhouette_at(ps, o, range.part);
    traverse(range, sil, ps.part[range.part].role)
}

fn no_traversal() -> Traversal {
    let step = Step {
        named: 0,
        starts: 0,
        seg: None,
    };
    let steps = [step; 12];
    Traversal {
        part: 0,
        cut: false,
        count: 0,
        steps,
        before: None,
        after: None,
        wrapped: false,
        ends: 0,
    }
}

fn traversals_of(ps: Parts, o: Outlines, u: Surface) -> Traversals
    requires { FewParts ps × DrawnSide ps u }
    ensures { (result.count ≡ u.count) × (runs_in result ≡ traversals_of ps o u) }
{
    let mut all = [no_traversal(); 4];
    for k in 0..u.count {
        all[k] = traversal_of(ps, o, u.range[k]);
    }
    Traversals {
        count: u.count,
        traversal: all,
    }
}

// The centre of a side of outlines that stand in rows.
fn center_in(ps: Parts, segs: &[SegRow], u: Surface, wanted: bool) -> Point
    requires { FewParts ps × DrawnSide ps u }
    ensures { result ≡ center_at ps (outlines_in segs.now) u wanted }
{
    let front = u.range[0];
    let back = u.range[u.count - 1];
    let i = front.part;
    let j = back.part;
    center(
        wanted,
        segs,
        start_of_part(ps, i),
        ps.part[i],
        front,
        start_of_part(ps, j),
        ps.part[j],
        back,
    )
}

fn center_at(ps: Parts, o: Outlines, u: Surface, wanted: bool) -> Point
    requires { FewParts ps × DrawnSide ps u }
    ensures { result ≡ center_at ps o u wanted }
{
    let mut segs = [[0.0; 8]; 384];
    put_segs(&mut segs, o, segs_counted(ps));
    center_in(ps, &segs, u, wanted)
}

// One side of a pair, read into its body's frame; `wanted` asks for the centre on the axis of a turned part.
fn side(ps: Parts, o: Outlines, u: Surface, wanted: bool) -> SideFeatures
    requires { FewParts ps × DrawnSide ps u }
    ensures { result ≡ side_of ps o u wanted }
{
    let f = read_all(traversals_of(ps, o, u));
    let i = u.range[0].part;
    let face = f.face;
    let disc = f.disc;
    SideFeatures {
        body: ps.part[i].body,
        faces: f.faces,
        face,
        discs: f.discs,
        disc,
        center: PlacedPoint {
            piece: Piece::Center { part: i },
            point: center_at(ps, o, u, wanted),
        },
    }
}

// The centre of a side's drawn face, as `side` gives it, of outlines that stand in rows, for any values: on the ground's origin where the side is not drawn.
pub fn center_of(ps: Parts, segs: &[SegRow], u: Surface, wanted: bool) -> MaterialPoint
    ensures { result ≡ center_of_side ps (outlines_in segs.now) u wanted }
{
    if side_drawn(ps, u) {
        let i = u.range[0].part;
        return MaterialPoint {
            body: ps.part[i].body,
            at: center_in(ps, segs, u, wanted),
        };
    }
    MaterialPoint {
        body: 0,
        at: Point { x: 0.0, y: 0.0 },
    }
}

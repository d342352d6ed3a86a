// The candidates of a pair at a pose (contact/rows.rs: `read_pair`), in a lent array.
#![tactic(auto)]

ghost use Rattle.std.specs.Prelude.{◌≡◌, ℕ, true, cond, List, [], ◌+◌, ◌*◌, ◌<◌, ◌≤◌, length, take, map};
ghost use Rattle.std.proofs.lemmas.List.Edits.{sets};
ghost use Rattle.laws.specs.Lists.{list_in, flat};
ghost use Rattle.bodies.specs.declared.pose.Pose.{Pose};
ghost use Rattle.mechanism.specs.Check.{FewParts, pair_drawn};
ghost use Rattle.material.specs.Material.{Material, drawn_material};
ghost use Rattle.material.specs.declared.DrawnMaterial.{DrawnMaterial};
ghost use Rattle.drawing.specs.Drawing.{Held, chosen_material};
ghost use Rattle.drawing.specs.declared.Chosen.{Chosen};
ghost use Rattle.proximities.specs.Proximities.{read_ab, read_ba, read_discs, read_center, each, Written};
ghost use Rattle.proximities.specs.declared.Candidate.{Candidate};
ghost use Rattle.candidates.specs.Candidates.{place_face, place_disc, faces_at, discs_at, disc_deep, any_deep, center_deep, no_material};
ghost use Rattle.candidates.specs.Candidates.{placed_candidates, features_candidates, center_candidates, candidates_of, places_of, blank_face, blank_side, FewPlaced, pair_candidates, candidate_room};
ghost use Rattle.candidates.specs.declared.Reading.{Reading};
ghost use Rattle.sides.specs.Features.{faces_in, discs_in};

pub mod prepared;

use bodies::pose::{Placement, Pose, placement_at};
use drawing::{Chosen, Polygons, draw, side_chosen};
use geometry::signed::{Disc, Face, Proximity, center_on_face, disc_on_disc, disc_on_face};
use geometry::{Dir, Point};
use material::{DrawnMaterial, Spot};
use mechanism::check::pair_drawn;
use mechanism::features::Piece;
use mechanism::pair::{ContactPair, PairGeometry};
use mechanism::{Outlines, Parts};
use proximities::{
    Candidate, center_on, found_deep, on_face_a, on_face_b, put_candidate, world_disc, world_face,
};
use sides::contacts::pair_features_at;
use sides::held::Side;
use sides::{PlacedDisc, PlacedFace, PlacedPoint, SideFeatures};

// ---- a side in the world

fn place_face(place: Placement, f: PlacedFace) -> PlacedFace
    ensures { result ≡ place_face place f }
{
    PlacedFace {
        piece: f.piece,
        face: world_face(place, f.face),
    }
}

fn place_disc(place: Placement, d: PlacedDisc) -> PlacedDisc
    ensures { result ≡ place_disc place d }
{
    PlacedDisc {
        piece: d.piece,
        disc: world_disc(place, d.disc),
    }
}

// Writes the elements of the numbers below n to the front.
fn put_front<T: Copy, F: Fn(usize) -> T>(out: &mut [T], n: usize, element: F)
    requires calls { (i : ℕ) → F.pre element i }
    requires room { n ≤ length out.old }
    ensures { (f : ℕ → T) → ((i : ℕ) (x : T) → i < n → F.post element i x → x ≡ f i) → out.new ≡ sets out.old 0 (list_in f n 0) }
{
    for i in 0..n {
        out[i] = element(i);
    }
}

// Writes a side's faces, placed, to the front, and answers how many.
fn place_faces<S: Side>(out: &mut [PlacedFace], s: &S, place: Placement) -> usize
    requires { 12 ≤ length out.old }
    ensures few { (result ≤ 12) × (result ≤ length out.new) }
    ensures count { result ≡ length (faces_in (S.features s.now)) }
    ensures placed { take result out.new ≡ map (place_face place) (faces_in (S.features s.now)) }
{
    let faces = s.faces();
    put_front(out, faces, |i| place_face(place, s.face(i)));
    faces
}

// Writes a side's faces and discs in the world. They go where they are read, since a side is large to move.
fn place_side<S: Side>(out: &mut SideFeatures, s: &S, q: Pose)
    ensures few { (out.new.faces ≤ 12) × (out.new.discs ≤ 28) }
    ensures counts { (out.new.faces ≡ length (faces_in (S.features s.now))) × (out.new.discs ≡ length (discs_in (S.features s.now))) }
    ensures placed { (faces_in out.new ≡ faces_at (S.features s.now) q) × (discs_in out.new ≡ discs_at (S.features s.now) q) }
{
    let place = placement_at(q, s.body());
    let discs = s.discs();
    out.faces = place_faces(&mut out.face, s, place);
    put_front(&mut out.disc, discs, |i| place_disc(place, s.disc(i)));
    out.discs = discs;
}

// What a face is before it is placed: zeros throughout, which are cheap to write.
fn blank_face() -> PlacedFace
    ensures { result ≡ blank_face }
{
    let o = Point { x: 0.0, y: 0.0 };
    PlacedFace {
        piece: Piece::Segment { part: 0, seg: 0 },
        face: Face {
            a: o,
            b: o,
            normal: Dir { x: 0.0, y: 0.0 },
        },
    }
}

// What a side is before it is placed: zeros too.
fn blank_side() -> SideFeatures
    ensures { result ≡ blank_side }
{
    let piece = Piece::Segment { part: 0, seg: 0 };
    let o = Point { x: 0.0, y: 0.0 };
    let d = Dir { x: 0.0, y: 0.0 };
    let disc = Disc {
        center: o,
        radius: 0.0,
        from: d,
        to: d,
    };
    SideFeatures {
        body: 0,
        faces: 0,
        face: [blank_face(); 12],
        discs: 0,
        disc: [PlacedDisc { piece, disc }; 28],
        center: PlacedPoint { piece, point: o },
    }
}

// Two sides in the world.
#[derive(Clone, Copy)]
struct PlacedSides<'a> {
    a: &'a SideFeatures,
    b: &'a SideFeatures,
}

// ---- readings into a lent array

// What is read of two pieces, and which of them decides: 1 side A's, 2 side B's, 0 none.
#[derive(Clone, Copy)]
struct Reading {
    a: Piece,
    b: Piece,
    who: usize,
    near: Option<Proximity>,
}

// The readings of a list's elements, in order.
fn put_each<T: Copy, F: Fn(T) -> Reading>(
    out: &mut [Candidate],
    at: usize,
    list: &[T],
    read: F,
) -> usize
    requires calls { (x : T) → F.pre read x }
    requires room { at + length list.now ≤ length out.old }
    ensures few { result ≤ at + length list.now }
    ensures written { (f : T → List Candidate) → ((x : T) (r : Reading) → F.post read x r → candidates_of r ≡ f x) → Written (flat f list.now) at result out.old out.new }
{
    let mut to = at;
    for x in list {
        let r = read(*x);
        to = put_candidate(out, to, r.a, r.b, r.who, r.near);
    }
    to
}

// The readings of each element of one list with each of another, those of the first list outermost.
fn put_all<A: Copy, B: Copy, F: Fn(A, B) -> Reading>(
    out: &mut [Candidate],
    at: usize,
    left: &[A],
    right: &[B],
    read: F,
) -> usize
    requires calls { (x : A) (y : B) → F.pre read x y }
    requires room { at + length left.now * length right.now ≤ length out.old }
    ensures few { result ≤ at + length left.now * length right.now }
    ensures written { (f : A → B → List Candidate) → ((x : A) (y : B) (r : Reading) → F.post read x y r → candidates_of r ≡ f x y) → Written (each f left.now right.now) at result out.old out.new }
{
    let mut to = at;
    for x in left {
        to = put_each(out, to, right, |y| read(*x, y));
    }
    to
}

// All discs of side A on the faces of side B.
fn discs_on_b(out: &mut [Candidate], at: usize, s: &PlacedSides, m: &DrawnMaterial) -> usize
    requires { (s.now.a.now.discs ≤ 28) × (s.now.b.now.faces ≤ 12) × (at + s.now.a.now.discs * s.now.b.now.faces ≤ length out.old) }
    ensures few { result ≤ at + s.now.a.now.discs * s.now.b.now.faces }
    ensures written { Written (each (read_ab (drawn_material m.now)) (discs_in s.now.a.now) (faces_in s.now.b.now)) at result out.old out.new }
{
    let discs = &s.a.disc[..s.a.discs];
    let faces = &s.b.face[..s.b.faces];
    let read = |d: PlacedDisc, f: PlacedFace| Reading {
        a: d.piece,
        b: f.piece,
        who: 1,
        near: on_face_b(m, d.disc, f.face),
    };
    put_all(out, at, discs, faces, read)
}

// All discs of side B on the faces of side A.
fn discs_on_a(out: &mut [Candidate], at: usize, s: &PlacedSides, m: &DrawnMaterial) -> usize
    requires { (s.now.b.now.discs ≤ 28) × (s.now.a.now.faces ≤ 12) × (at + s.now.b.now.discs * s.now.a.now.faces ≤ length out.old) }
    ensures few { result ≤ at + s.now.b.now.discs * s.now.a.now.faces }
    ensures written { Written (each (read_ba (drawn_material m.now)) (discs_in s.now.b.now) (faces_in s.now.a.now)) at result out.old out.new }
{
    let discs = &s.b.disc[..s.b.discs];
    let faces = &s.a.face[..s.a.faces];
    let read = |d: PlacedDisc, f: PlacedFace| Reading {
        a: f.piece,
        b: d.piece,
        who: 2,
        near: on_face_a(m, d.disc, f.face),
    };
    put_all(out, at, discs, faces, read)
}

// All discs of side A on the discs of side B.
fn discs_on_discs(out: &mut [Candidate], at: usize, s: &PlacedSides) -> usize
    requires { (s.now.a.now.discs ≤ 28) × (s.now.b.now.discs ≤ 28) × (at + s.now.a.now.discs * s.now.b.now.discs ≤ length out.old) }
    ensures { Written (each read_discs (discs_in s.now.a.now) (discs_in s.now.b.now)) at result out.old out.new }
{
    let mine = &s.a.disc[..s.a.discs];
    let others = &s.b.disc[..s.b.discs];
    let read = |d: PlacedDisc, e: PlacedDisc| Reading {
        a: d.piece,
        b: e.piece,
        who: 0,
        near: disc_on_disc(d.disc, e.disc),
    };
    put_all(out, at, mine, others, read)
}

// The centre of side B on the faces of side A.
fn center_on_faces(
    out: &mut [Candidate],
    c: PlacedPoint,
    faces: &[PlacedFace],
    m: &DrawnMaterial,
) -> usize
    requires { length faces.now ≤ length out.old }
    ensures { Written (flat (read_center (drawn_material m.now) c.piece c.point) faces.now) 0 result out.old out.new }
{
    let read = |f: PlacedFace| Reading {
        a: f.piece,
        b: c.piece,
        who: 2,
        near: center_on(m, c.point, f.face),
    };
    put_each(out, 0, faces, read)
}

// ---- whether the material is asked for

// Whether a disc reads deep on one of the faces.
fn disc_deep(d: Disc, faces: &[PlacedFace]) -> bool
    ensures { result ≡ disc_deep faces.now d }
{
    faces.iter().any(|f| found_deep(disc_on_face(d, f.face)))
}

// Whether one of the discs reads deep on one of the faces.
fn any_deep(discs: &[PlacedDisc], faces: &[PlacedFace]) -> bool
    ensures { result ≡ any_deep discs.now faces.now }
{
    discs.iter().any(|d| disc_deep(d.disc, faces))
}

// Whether a centre reads deep on one of the faces.
fn center_deep(c: Point, faces: &[PlacedFace]) -> bool
    ensures { result ≡ center_deep faces.now c }
{
    faces.iter().any(|f| found_deep(center_on_face(c, f.face)))
}

// ---- the material that is drawn

// What the materials of a pair's sides are drawn from: a description as it is, or prepared.
trait Drawing {
    // The materials of the chosen parts of either side.
    ghost material_a: { Self → Material };

    ghost material_b: { Self → Material };

    // How many points have room for either of them.
    ghost most: { Self → ℕ };

    // Where that is more than those of any description, there is no material.
    fn room(&self) -> usize
        ensures { (result ≡ most self.now) × (6144 < result → (material_a self.now ≡ no_material) × (material_b self.now ≡ no_material)) };

    // Draws the material of side A.
    fn draw_a(&self, points: &mut [Spot], starts: &mut [usize]) -> Polygons
        requires { (most self.now ≤ 6144) × (most self.now ≤ length points.old) × (33 ≤ length starts.old) }
        ensures { (m : DrawnMaterial) → Held result points.new starts.new m → drawn_material m ≡ material_a self.now };

    // Draws the material of side B.
    fn draw_b(&self, points: &mut [Spot], starts: &mut [usize]) -> Polygons
        requires { (most self.now ≤ 6144) × (most self.now ≤ length points.old) × (33 ≤ length starts.old) }
        ensures { (m : DrawnMaterial) → Held result points.new starts.new m → drawn_material m ≡ material_b self.now };
}

// A description as it is, its parts and their outlines, at a pose, with the chosen parts of each side.
#[derive(Clone, Copy)]
struct Described<'a> {
    parts: &'a Parts,
    outlines: &'a Outlines,
    q: Pose,
    a: Chosen,
    b: Chosen,

    ghost few: { FewParts parts.now },
}

impl Drawing for Described<'_> {
    ghost material_a = { λ d. chosen_material d.parts.now d.outlines.now d.q d.a };

    ghost material_b = { λ d. chosen_material d.parts.now d.outlines.now d.q d.b };

    ghost most = { λ d. 6144 };

    fn room(&self) -> usize {
        6144
    }

    fn draw_a(&self, points: &mut [Spot], starts: &mut [usize]) -> Polygons {
        draw(points, starts, *self.parts, *self.outlines, self.q, self.a)
    }

    fn draw_b(&self, points: &mut [Spot], starts: &mut [usize]) -> Polygons {
        draw(points, starts, *self.parts, *self.outlines, self.q, self.b)
    }
}

// The material of no parts.
#[tactic(auto, unfolding(laws::specs::Lists::list_in))]
fn nothing<'a>() -> DrawnMaterial<'a>
    ensures { drawn_material result ≡ no_material }
{
    DrawnMaterial {
        points: &[],
        starts: &[],
        solids: 0,
        all: 0,
    }
}

// ---- the candidates of two sides in the world

// With both materials, in room for N points: a function pays for all its arrays when it is entered, so each room is a call of its own.
fn deep_features_with<const N: usize, D: Drawing>(
    out: &mut [Candidate],
    from: &D,
    s: &PlacedSides,
) -> usize
    requires { (D.most from.now ≤ N) × (N ≤ 6144) × FewPlaced s.now (length out.old) }
    ensures { Written (placed_candidates (D.material_a from.now) (D.material_b from.now) s.now) 0 result out.old out.new }
{
    let mut points = [[0.0; 2]; N];
    let mut starts = [0; 33];
    let n = from.draw_b(&mut points, &mut starts);
    let i = discs_on_b(out, 0, s, &n.held(&points, &starts));
    let n = from.draw_a(&mut points, &mut starts);
    let j = discs_on_a(out, i, s, &n.held(&points, &starts));
    discs_on_discs(out, j, s)
}

// Without material.
fn plain_features(out: &mut [Candidate], s: &PlacedSides) -> usize
    requires { FewPlaced s.now (length out.old) }
    ensures { Written (placed_candidates no_material no_material s.now) 0 result out.old out.new }
{
    let m = nothing();
    let i = discs_on_b(out, 0, s, &m);
    let j = discs_on_a(out, i, s, &m);
    discs_on_discs(out, j, s)
}

// With both materials, or without them where no room is enough.
fn deep_features<D: Drawing>(out: &mut [Candidate], from: &D, s: &PlacedSides) -> usize
    requires { FewPlaced s.now (length out.old) }
    ensures { Written (placed_candidates (D.material_a from.now) (D.material_b from.now) s.now) 0 result out.old out.new }
{
    let n = from.room();
    if n <= 512 {
        return deep_features_with::<512, D>(out, from, s);
    }
    if n <= 6144 {
        return deep_features_with::<6144, D>(out, from, s);
    }
    plain_features(out, s)
}

// The material is asked for where something reads deep.
fn features_candidates<D: Drawing>(out: &mut [Candidate], from: &D, s: &PlacedSides) -> usize
    requires { FewPlaced s.now (length out.old) }
    ensures { Written (placed_candidates (D.material_a from.now) (D.material_b from.now) s.now) 0 result out.old out.new }
{
    if any_deep(&s.a.disc[..s.a.discs], &s.b.face[..s.b.faces])
        || any_deep(&s.b.disc[..s.b.discs], &s.a.face[..s.a.faces])
    {
        return deep_features(out, from, s);
    }
    plain_features(out, s)
}

// ---- the candidates of a centre in the world on a side's faces

// With the material, in room for N points.
fn deep_center_with<const N: usize, D: Drawing>(
    out: &mut [Candidate],
    from: &D,
    c: PlacedPoint,
    faces: &[PlacedFace],
) -> usize
    requires { (D.most from.now ≤ N) × (N ≤ 6144) × (length faces.now ≤ length out.old) }
    ensures { Written (flat (read_center (D.material_a from.now) c.piece c.point) faces.now) 0 result out.old out.new }
{
    let mut points = [[0.0; 2]; N];
    let mut starts = [0; 33];
    let n = from.draw_a(&mut points, &mut starts);
    center_on_faces(out, c, faces, &n.held(&points, &starts))
}

// Without material.
fn plain_center(out: &mut [Candidate], c: PlacedPoint, faces: &[PlacedFace]) -> usize
    requires { length faces.now ≤ length out.old }
    ensures { Written (flat (read_center no_material c.piece c.point) faces.now) 0 result out.old out.new }
{
    center_on_faces(out, c, faces, &nothing())
}

// With the material, or without it where no room is enough.
fn deep_center<D: Drawing>(
    out: &mut [Candidate],
    from: &D,
    c: PlacedPoint,
    faces: &[PlacedFace],
) -> usize
    requires { length faces.now ≤ length out.old }
    ensures { Written (flat (read_center (D.material_a from.now) c.piece c.point) faces.now) 0 result out.old out.new }
{
    let n = from.room();
    if n <= 512 {
        return deep_center_with::<512, D>(out, from, c, faces);
    }
    if n <= 6144 {
        return deep_center_with::<6144, D>(out, from, c, faces);
    }
    plain_center(out, c, faces)
}

// The material is asked for where something reads deep.
fn center_candidates<D: Drawing>(
    out: &mut [Candidate],
    from: &D,
    c: PlacedPoint,
    faces: &[PlacedFace],
) -> usize
    requires { length faces.now ≤ length out.old }
    ensures { Written (flat (read_center (D.material_a from.now) c.piece c.point) faces.now) 0 result out.old out.new }
{
    if center_deep(c.point, faces) {
        return deep_center(out, from, c, faces);
    }
    plain_center(out, c, faces)
}

// ---- the candidates of a pair, with the parts of each side's material

fn of_features<S: Side, D: Drawing>(out: &mut [Candidate], from: &D, q: Pose, a: &S, b: &S) -> usize
    requires { places_of (S.features a.now) (S.features b.now) ≤ length out.old }
    ensures { Written (features_candidates (D.material_a from.now) (D.material_b from.now) (record { a = S.features a.now; b = S.features b.now }) q) 0 result out.old out.new }
{
    let mut sa = blank_side();
    let mut sb = blank_side();
    place_side(&mut sa, a, q);
    place_side(&mut sb, b, q);
    features_candidates(out, from, &PlacedSides { a: &sa, b: &sb })
}

fn of_center<S: Side, D: Drawing>(out: &mut [Candidate], from: &D, q: Pose, a: &S, b: &S) -> usize
    requires { length (faces_in (S.features a.now)) ≤ length out.old }
    ensures { Written (center_candidates (D.material_a from.now) (record { a = S.features a.now; b = S.features b.now }) q) 0 result out.old out.new }
{
    let center = b.center();
    let c = PlacedPoint {
        piece: center.piece,
        point: placement_at(q, b.body()).world(center.point),
    };
    let mut placed = [blank_face(); 12];
    let faces = place_faces(&mut placed, a, placement_at(q, a.body()));
    center_candidates(out, from, c, &placed[..faces])
}

fn drawn_candidates(out: &mut [Candidate], ps: Parts, o: Outlines, q: Pose, p: ContactPair) -> usize
    requires { (pair_drawn ps p ≡ true) × (784 ≤ length out.old) }
    ensures { Written (pair_candidates ps o q p) 0 result out.old out.new }
{
    let f = pair_features_at(ps, o, p);
    let features = matches!(p.geometry, PairGeometry::Features);
    let from = Described {
        parts: &ps,
        outlines: &o,
        q,
        a: side_chosen(ps, p.a, features),
        b: side_chosen(ps, p.b, features),
    };
    if features {
        return of_features(out, &from, q, &f.a, &f.b);
    }
    of_center(out, &from, q, &f.a, &f.b)
}

fn candidate_room(ps: Parts, p: ContactPair, n: usize) -> bool
    ensures { result ≡ candidate_room ps p n }
{
    pair_drawn(ps, p) && 784 <= n
}

// Writes the candidates of a pair at a pose, in order; nothing where a side is not drawn or the array is too short.
pub fn pair_candidates(
    out: &mut [Candidate],
    ps: Parts,
    o: Outlines,
    q: Pose,
    p: ContactPair,
) -> usize
    ensures { Written (cond (candidate_room ps p (length out.old)) (pair_candidates ps o q p) []) 0 result out.old out.new }
{
    if candidate_room(ps, p, out.len()) {
        return drawn_candidates(out, ps, o, q, p);
    }
    0
}

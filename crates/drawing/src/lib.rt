// The drawn material of parts at a pose, as polygons in lent arrays (contact/rows.rs: `material`, `is_read`, `is_sampled`).
#![tactic(auto)]

ghost use Rattle.std.specs.Prelude.{◌≡◌, map, ◌+◌, ◌≤◌, length, take};
ghost use Rattle.std.proofs.lemmas.List.Edits.{sets};
ghost use Rattle.laws.specs.Lists.{flat};
ghost use Rattle.mechanism.specs.Check.{FewParts};
ghost use Rattle.mechanism.specs.Description.{start_of_part};
ghost use Rattle.mechanism.specs.Segments.{outlines_in};
ghost use Rattle.silhouette.specs.Silhouette.{silhouette_from};
ghost use Rattle.drawing.specs.Drawing.{is_cut, is_sampled, is_read_cut, body_of_side, is_own, has_own, what_is, side_chosen};
ghost use Rattle.drawing.specs.Drawing.{drawn_points, polygon_of, solids_of, cuts_of, Laid, Held, row_of, room_for, room_from, part_starts};

mod outlined;
pub mod points;
pub mod prepared;
pub mod samples;

use bodies::pose::{Pose, placement_at};
use geometry::{Drawn, Point, Seg};
use material::{DrawnMaterial, Spot};
use mechanism::check::{parts_over, segs_counted};
use mechanism::pair::Surface;
use mechanism::part::{Part, Role, SurfaceRef, Sweep};
use mechanism::segments::{SegRow, put_segs};
use mechanism::{Outlines, Parts};
use outlined::{Outlined, draw_chosen};
use silhouette::is_in_the_section;
use silhouette::rows::{silhouette_count, silhouette_seg};

// What each part is to a material: 1 a solid of it, 2 a cut of it, 0 neither.
#[derive(Clone, Copy)]
pub struct Chosen {
    pub what: [u8; 32],
}

// How many polygons there are, the first `solids` of `all` being parts and the others cuts, and how many points they have together.
#[derive(Clone, Copy)]
pub struct Polygons {
    pub solids: usize,
    pub all: usize,
    pub points: usize,
}

fn no_polygons() -> Polygons
    ensures { result ≡ record { solids = 0; all = 0; points = 0 } }
{
    Polygons {
        solids: 0,
        all: 0,
        points: 0,
    }
}

impl Polygons {
    // The material whose polygons stand at the front of lent arrays.
    pub fn held<'a>(self, points: &'a [Spot], starts: &'a [usize]) -> DrawnMaterial<'a>
        ensures { Held self points.entry.now starts.entry.now result }
    {
        DrawnMaterial {
            points: &points[..self.points.min(points.len())],
            starts: &starts[..self.all.saturating_add(1).min(starts.len())],
            solids: self.solids,
            all: self.all,
        }
    }
}

// ---- which parts the overlap readings read

fn is_cut(role: Role) -> bool
    ensures { result ≡ is_cut role }
{
    matches!(role, Role::Cut)
}

// Whether a part is a solid or a lining in the section.
pub fn is_sampled(p: Part) -> bool
    ensures { result ≡ is_sampled p }
{
    !is_cut(p.role) & is_in_the_section(p.sweep)
}

// Whether a part is a cut in the section.
pub fn is_read_cut(p: Part) -> bool
    ensures { result ≡ is_read_cut p }
{
    is_cut(p.role) & is_in_the_section(p.sweep)
}

// ---- the parts of a side

// Part i, one without segments where there is no such part.
fn part_at(ps: Parts, i: usize) -> Part
    ensures { result ≡ Rattle.mechanism.specs.Description.part_at ps i }
{
    if i < 32 {
        return ps.part[i];
    }
    let nan = 0.0 / 0.0;
    Part {
        body: 0,
        segs: 0,
        sweep: Sweep::Extruded {
            width: nan,
            across: nan,
        },
        role: Role::Solid,
    }
}

// How many ranges an array of four holds.
fn ranges(u: Surface) -> usize
    ensures { (result ≤ 4) × (take result u.range ≡ take u.count u.range) }
{
    if u.count < 4 { u.count } else { 4 }
}

// Whether one of the side's ranges is of part i.
pub fn is_own(u: Surface, i: usize) -> bool
    ensures { result ≡ is_own u i }
{
    for k in 0..ranges(u) {
        if u.range[k].part == i {
            return true;
        }
    }
    false
}

// Whether one of the side's ranges is of a part that is sampled.
fn has_own(ps: Parts, u: Surface) -> bool
    ensures { result ≡ has_own ps u }
{
    for k in 0..ranges(u) {
        if is_sampled(part_at(ps, u.range[k].part)) {
            return true;
        }
    }
    false
}

// The body of the side's first range.
pub fn body_of_side(ps: Parts, u: Surface) -> usize
    ensures { result ≡ body_of_side ps u }
{
    part_at(ps, u.range[0].part).body
}

pub fn what_is(solid: bool, cut: bool) -> u8
    ensures { result ≡ what_is solid cut }
{
    if solid {
        1
    } else if cut {
        2
    } else {
        0
    }
}

// The parts of a side's material; `cuts` says whether the cuts of its body are taken away.
pub fn side_chosen(ps: Parts, u: Surface, cuts: bool) -> Chosen
    ensures { result ≡ side_chosen ps u cuts }
{
    let body = body_of_side(ps, u);
    let own = has_own(ps, u);
    let mut what = [0u8; 32];
    for i in 0..32 {
        let p = ps.part[i];
        let there = p.body == body;
        let solid = there & (is_sampled(p) & (!own | is_own(u, i)));
        let cut = there & (is_read_cut(p) & cuts);
        what[i] = what_is(solid, cut);
    }
    Chosen { what }
}

// ---- polygons

// Writes the points of a segment as it is drawn, each as `place` has it, from `at` on.
#[tactic(auto, using(crate::proofs::Segments::drawn_known))]
fn draw_seg<F: Fn(Point) -> Point>(points: &mut [Spot], at: usize, s: Seg, place: &F) -> usize
    requires calls { (p : Point) → F.pre place.now p }
    requires room { at + length (drawn_points s) ≤ length points.old }
    ensures next { result ≡ at + length (drawn_points s) }
    ensures written { (g : Point → Point) → ((p : Point) (r : Point) → F.post place.now p r → r ≡ g p) → points.new ≡ sets points.old at (map row_of (map g (drawn_points s))) }
{
    let d = s.drawn();
    for k in 0..d.count {
        let p = place(d.points[k]);
        points[at + k] = [p.x, p.y];
    }
    at + d.count
}

// Writes the polygon of a part whose outline starts in row `first`, each point as `place` has it, from `at` on.
fn draw_polygon<F: Fn(Point) -> Point>(
    points: &mut [Spot],
    at: usize,
    segs: &[SegRow],
    first: usize,
    p: Part,
    place: &F,
) -> usize
    requires calls { (x : Point) → F.pre place.now x }
    requires room { (p.segs ≤ 48) × (first + p.segs ≤ length segs.now) × (at + length (flat drawn_points (silhouette_from (outlines_in segs.now) first p)) ≤ length points.old) }
    ensures next { result ≡ at + length (flat drawn_points (silhouette_from (outlines_in segs.now) first p)) }
    ensures written { (g : Point → Point) → ((x : Point) (r : Point) → F.post place.now x r → r ≡ g x)
        → points.new ≡ sets points.old at (map row_of (map g (flat drawn_points (silhouette_from (outlines_in segs.now) first p)))) }
{
    let mut to = at;
    for i in 0..silhouette_count(p) {
        to = draw_seg(points, to, silhouette_seg(segs, first, p, i), place);
    }
    to
}

// Where the outline of each part starts.
pub type PartStarts = [usize; 32];

// Where the outlines of parts start, one behind the other, of which none counts more than the limit, 48 segments.
pub fn part_starts(ps: &Parts) -> PartStarts
    ensures { result ≡ part_starts ps.now }
{
    let mut starts = [0; 32];
    let mut at = 0;
    for i in 0..32 {
        starts[i] = at;
        at += ps.part[i].segs.min(48);
    }
    starts
}

// Parts with their outlines in rows, and where each starts, at a pose.
#[derive(Clone, Copy)]
struct PlacedParts<'a> {
    parts: &'a Parts,
    segs: &'a [SegRow],
    starts: PartStarts,
    q: Pose,

    ghost begun: { starts ≡ part_starts parts.now },

    ghost few: { FewParts parts.now },

    ghost there: { start_of_part parts.now parts.now.count ≤ length segs.now },
}

impl Outlined for PlacedParts<'_> {
    ghost count = { λ s. s.parts.now.count };

    ghost polygon = { λ s. polygon_of s.parts.now (outlines_in s.segs.now) s.q };

    ghost few = { λ s. s.few.count };

    fn count(&self) -> usize {
        self.parts.count
    }

    fn draw_part(&self, points: &mut [Spot], at: usize, i: usize) -> usize {
        let p = self.parts.part[i];
        let first = self.starts[i];
        let place = placement_at(self.q, p.body);
        draw_polygon(points, at, self.segs, first, p, &|x| place.world(x))
    }
}

fn room_from(ps: Parts, points: usize, starts: usize, segs: usize) -> bool
    ensures { result ≡ room_from ps points starts segs }
{
    let n = segs_counted(ps);
    !parts_over(ps) & ((16 * n <= points) & ((33 <= starts) & (n <= segs)))
}

// Writes the polygons of the chosen parts, whose outlines stand in rows, the solids first, and where each of them starts; nothing where a limit is passed, the arrays are
// too short or a segment is not there.
pub fn draw_from(
    points: &mut [Spot],
    starts: &mut [usize],
    ps: &Parts,
    segs: &[SegRow],
    q: Pose,
    c: Chosen,
) -> Polygons
    ensures { let there = room_from ps.now (length points.old) (length starts.old) (length segs.now) in
        let o = outlines_in segs.now in
        Laid there (solids_of ps.now o q c) (cuts_of ps.now o q c) points.old starts.old result points.new starts.new }
{
    let n = points.len();
    let m = starts.len();
    let l = segs.len();
    if room_from(*ps, n, m, l) {
        let placed = PlacedParts {
            parts: ps,
            segs,
            starts: part_starts(ps),
            q,
        };
        return draw_chosen(points, starts, &placed, c);
    }
    no_polygons()
}

fn room_for(ps: Parts, points: usize, starts: usize) -> bool
    ensures { result ≡ room_for ps points starts }
{
    !parts_over(ps) & ((6144 <= points) & (33 <= starts))
}

// The same of outlines as a value; nothing where a limit is passed or the arrays are too short for any parts.
pub fn draw(
    points: &mut [Spot],
    starts: &mut [usize],
    ps: Parts,
    o: Outlines,
    q: Pose,
    c: Chosen,
) -> Polygons
    ensures { let there = room_for ps (length points.old) (length starts.old) in
        Laid there (solids_of ps o q c) (cuts_of ps o q c) points.old starts.old result points.new starts.new }
{
    let n = points.len();
    let m = starts.len();
    if room_for(ps, n, m) {
        let mut segs = [[0.0; 8]; 384];
        put_segs(&mut segs, o, segs_counted(ps));
        return draw_from(points, starts, &ps, &segs, q, c);
    }
    no_polygons()
}

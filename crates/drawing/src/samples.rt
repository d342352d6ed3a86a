// The points sampled along a part's silhouette, and the mouths of cuts (contact/rows.rs: `sunk`).
ghost use Rattle.std.specs.Prelude.{◌≡◌, cond, map, ◌+◌, ◌*◌, ◌≤◌, length};
ghost use Rattle.std.proofs.lemmas.List.Edits.{sets};
ghost use Rattle.laws.specs.Lists.{list_in};
ghost use Rattle.mechanism.specs.Check.{FewParts};
ghost use Rattle.mechanism.specs.Description.{start_of_part};
ghost use Rattle.mechanism.specs.Segments.{outlines_in};
ghost use Rattle.bodies.specs.Pose.{world_of};
ghost use Rattle.silhouette.specs.Silhouette.{silhouette_from, silhouette_count};
ghost use Rattle.drawing.specs.Drawing.{row_of};
ghost use Rattle.drawing.specs.Samples.{ends_of, mouths_of, same_ends, is_mouth, on_line, sample_points, samples_of, mouth_row, mouths_in, mouth_room};

use super::{draw_seg, is_read_cut};
use bodies::pose::Placement;
use geometry::{Point, Seg};
use material::Spot;
use mechanism::Parts;
use mechanism::check::{parts_over, same_point, segs_counted};
use mechanism::part::Part;
use mechanism::segments::SegRow;
use silhouette::rows::{silhouette_count, silhouette_seg};

// The two ends of a segment of a cut.
pub type Mouth = [f64; 4];

// The points sampled along one segment.
pub type SegSpots = [Spot; 17];

// ---- mouths

// Writes the ends of the segments of the silhouette of a part whose outline starts in row `first`, from `at` on.
fn put_ends(mouths: &mut [Mouth], at: usize, segs: &[SegRow], first: usize, p: Part) -> usize
    requires { (p.segs ≤ 48) × (first + p.segs ≤ length segs.now) × (at + silhouette_count p ≤ length mouths.old) }
    ensures { let sil = silhouette_from (outlines_in segs.now) first p in
        (result ≡ at + length sil) × (mouths.new ≡ sets mouths.old at (map mouth_row (map ends_of sil))) }
{
    let n = silhouette_count(p);
    for i in 0..n {
        let s = silhouette_seg(segs, first, p, i);
        let a = s.start();
        let e = s.end();
        mouths[at + i] = [a.x, a.y, e.x, e.y];
    }
    at + n
}

fn put_mouths(mouths: &mut [Mouth], ps: Parts, segs: &[SegRow]) -> usize
    requires { FewParts ps × (start_of_part ps ps.count ≤ length segs.now) × (2 * start_of_part ps ps.count ≤ length mouths.old) }
    ensures { (result ≡ length (mouths_of ps (outlines_in segs.now))) × (mouths.new ≡ sets mouths.old 0 (map mouth_row (mouths_of ps (outlines_in segs.now)))) }
{
    let mut first = 0;
    let mut at = 0;
    for i in 0..ps.count {
        let p = ps.part[i];
        if is_read_cut(p) {
            at = put_ends(mouths, at, segs, first, p);
        }
        first += p.segs;
    }
    at
}

fn mouth_room(ps: Parts, room: usize, segs: usize) -> bool
    ensures { result ≡ mouth_room ps room segs }
{
    let n = segs_counted(ps);
    !parts_over(ps) & ((2 * n <= room) & (n <= segs))
}

// Writes the ends of every segment of every cut in the section; nothing where a limit is passed, the array is too short or a segment is not there.
#[tactic(auto, using(crate::proofs::Mouths::has_mouth_room))]
pub fn draw_mouths(mouths: &mut [Mouth], ps: Parts, segs: &[SegRow]) -> usize
    ensures { let there = mouth_room ps (length mouths.old) (length segs.now) in
        let all = mouths_of ps (outlines_in segs.now) in
        (result ≡ cond there (length all) 0) × (mouths.new ≡ cond there (sets mouths.old 0 (map mouth_row all)) mouths.old) }
{
    let n = mouths.len();
    let l = segs.len();
    if mouth_room(ps, n, l) {
        return put_mouths(mouths, ps, segs);
    }
    0
}

#[tactic(auto, unfolding(crate::specs::Samples::same_ends))]
fn same_ends(a: Point, b: Point, c: Point, d: Point) -> bool
    ensures { result ≡ same_ends (record { a = a; b = b }) (record { a = c; b = d }) }
{
    let along = same_point(a, c) & same_point(b, d);
    let against = same_point(a, d) & same_point(b, c);
    along | against
}

// Whether the segment from a to b is a mouth.
pub fn is_mouth(mouths: &[Mouth], a: Point, b: Point) -> bool
    ensures { result ≡ is_mouth (mouths_in mouths.now) (record { a = a; b = b }) }
{
    for m in mouths {
        if same_ends(a, b, Point { x: m[0], y: m[1] }, Point { x: m[2], y: m[3] }) {
            return true;
        }
    }
    false
}

// ---- samples

// The point k sixteenths along the line from a to b.
pub fn on_line(a: Point, b: Point, k: u32) -> Point
    ensures { result ≡ on_line a b k }
{
    let t = k as f64 / 16.0;
    Point {
        x: a.x + t * (b.x - a.x),
        y: a.y + t * (b.y - a.y),
    }
}

// Writes seventeen points along the line from a to b, each as `place` has it, from `at` on.
fn put_line<F: Fn(Point) -> Point>(
    samples: &mut [Spot],
    at: usize,
    a: Point,
    b: Point,
    place: &F,
) -> usize
    requires calls { (p : Point) → F.pre place.now p }
    requires room { at + 17 ≤ length samples.old }
    ensures next { result ≡ at + 17 }
    ensures written { (g : Point → Point) → ((p : Point) (r : Point) → F.post place.now p r → r ≡ g p) → samples.new ≡ sets samples.old at (map row_of (map g (list_in (on_line a b) 17 0))) }
{
    for k in 0..17 {
        let p = place(on_line(a, b, k));
        samples[at + k as usize] = [p.x, p.y];
    }
    at + 17
}

fn put_points<F: Fn(Point) -> Point>(samples: &mut [Spot], at: usize, s: Seg, place: &F) -> usize
    requires calls { (p : Point) → F.pre place.now p }
    requires room { at + 17 ≤ length samples.old }
    ensures next { result ≡ at + length (sample_points s) }
    ensures written { (g : Point → Point) → ((p : Point) (r : Point) → F.post place.now p r → r ≡ g p) → samples.new ≡ sets samples.old at (map row_of (map g (sample_points s))) }
{
    match s {
        Seg::Line { a, b } => put_line(samples, at, a, b, place),
        Seg::Arc { .. } => draw_seg(samples, at, s, place),
    }
}

// Writes the samples of a segment, each as `place` has it; none where it is a mouth.
pub(crate) fn put_seg<F: Fn(Point) -> Point>(
    samples: &mut [Spot],
    at: usize,
    s: Seg,
    place: &F,
    mouths: &[Mouth],
) -> usize
    requires calls { (p : Point) → F.pre place.now p }
    requires room { at + 17 ≤ length samples.old }
    ensures next { result ≡ at + length (samples_of (mouths_in mouths.now) s) }
    ensures written { (g : Point → Point) → ((p : Point) (r : Point) → F.post place.now p r → r ≡ g p) → samples.new ≡ sets samples.old at (map row_of (map g (samples_of (mouths_in mouths.now) s))) }
{
    if is_mouth(mouths, s.start(), s.end()) {
        return at;
    }
    put_points(samples, at, s, place)
}

// Writes the samples of a segment, placed, to the front.
pub fn seg_samples(samples: &mut SegSpots, s: Seg, place: Placement, mouths: &[Mouth]) -> usize
    ensures { let points = samples_of (mouths_in mouths.now) s in
        (result ≡ length points) × (samples.new ≡ sets samples.old 0 (map row_of (map (world_of place) points))) × (result ≤ 17) }
{
    put_seg(samples, 0, s, &|p| place.world(p), mouths)
}

// How deep parts stand in one another (contact/rows.rs: `sunk`, `overlap`, `pair_overlap`, `parts_overlap`).
#![tactic(auto)]

ghost use Rattle.std.specs.Prelude.{◌≡◌, ℕ, Bool, true, ◌&&◌, map, ◌+◌, ◌*◌, ◌<◌, ◌≤◌, eqb, ltb, length};
ghost use Rattle.std.specs.List.{list_all};
ghost use Rattle.laws.specs.Lists.{list_in, flat};
ghost use Rattle.laws.specs.Loops.{any_in, fold_in};
ghost use Rattle.ieee.specs.Consts.{zero_f};
ghost use Rattle.ieee.specs.Num.{max_of};
ghost use Rattle.mechanism.specs.Check.{FewParts, side_drawn, pair_drawn};
ghost use Rattle.mechanism.specs.Description.{part_at, pair_at, start_of_part};
ghost use Rattle.mechanism.specs.Segments.{outlines_in, described, segs_counted};
ghost use Rattle.bodies.specs.Pose.{world_of};
ghost use Rattle.silhouette.specs.Silhouette.{silhouette_from};
ghost use Rattle.material.specs.Material.{points_of, drawn_material, deepest_square};
ghost use Rattle.drawing.specs.Drawing.{is_sampled, is_read_cut, what_is, chosen_material};
ghost use Rattle.drawing.specs.Samples.{mouths_in, samples_of, part_samples};
ghost use Rattle.overlap.specs.Overlap.{sunk_of, features_overlap, center_overlap, pair_overlap, pair_overlap_at, is_in};
ghost use Rattle.overlap.specs.Overlap.{all_parts, pair_overlap_answer, overlap_answer, parts_overlap, parts_overlap_answer, owner_at, as_owners};

mod posed;
pub mod prepared;
mod sunk;

use bodies::pose::{Placement, Pose, placement_at};
use bodies::{Bodies, Problem};
use drawing::samples::{Mouth, draw_mouths, seg_samples};
use drawing::{
    Chosen, Polygons, draw_from, is_own, is_read_cut, is_sampled, part_starts, side_chosen, what_is,
};
use geometry::Point;
use ieee::num::max;
use material::Spot;
use material::ranged::Ranged;
use mechanism::check::{call_checked, check_in, pair_drawn, segs_counted, then_called};
use mechanism::pair::{ContactPair, PairGeometry, Surface};
use mechanism::part::Part;
use mechanism::segments::{SegRow, put_segs};
use mechanism::{Mechanism, Outlines, Pairs, Parts};
use posed::Posed;
use sides::center_of;
use silhouette::rows::{silhouette_count, silhouette_seg};
use sunk::{Both, Sampled, sunk_both};

// ---- sunk

// The largest of `from` and the squares of the depths of the samples.
fn deepest_in(m: &Ranged, samples: &[Spot], from: f64) -> f64
    ensures { result ≡ deepest_square (drawn_material m.now.material) from (points_of samples.now) }
{
    let mut d = from;
    for v in samples {
        let p = Point { x: v[0], y: v[1] };
        d = m.deeper_square(p, d);
    }
    d
}

// The same of the samples of a part whose outline starts in row `first`, placed.
fn sunk_part(
    m: &Ranged,
    mouths: &[Mouth],
    segs: &[SegRow],
    first: usize,
    p: Part,
    place: Placement,
    from: f64,
) -> f64
    requires { (p.segs ≤ 48) × (first + p.segs ≤ length segs.now) }
    ensures { result ≡ deepest_square (drawn_material m.now.material) from (map (world_of place) (flat (samples_of (mouths_in mouths.now)) (silhouette_from (outlines_in segs.now) first p))) }
{
    let mut samples = [[0.0; 2]; 17];
    let mut d = from;
    for k in 0..silhouette_count(p) {
        let s = silhouette_seg(segs, first, p, k);
        let n = seg_samples(&mut samples, s, place, mouths);
        d = deepest_in(m, &samples[..n], d);
    }
    d
}

// Parts at a pose with the mouths of their cuts.
#[derive(Clone, Copy)]
struct PlacedSamples<'a> {
    posed: Posed<'a>,
    mouths: &'a [Mouth],
}

impl Sampled for PlacedSamples<'_> {
    ghost count = { λ s. s.posed.parts.now.count };

    ghost samples = { λ s. part_samples s.posed.parts.now (outlines_in s.posed.segs.now) s.posed.q (mouths_in s.mouths.now) };

    ghost material = { λ s. chosen_material s.posed.parts.now (outlines_in s.posed.segs.now) s.posed.q };

    ghost room = { λ s. 16 * start_of_part s.posed.parts.now s.posed.parts.now.count };

    ghost few = { λ s. s.posed.few.count };

    fn count(&self) -> usize {
        self.posed.parts.count
    }

    fn deepest(&self, m: &Ranged, i: usize, from: f64) -> f64 {
        let s = &self.posed;
        let p = s.parts.part[i];
        let first = s.starts[i];
        let place = placement_at(s.q, p.body);
        sunk_part(m, self.mouths, s.segs, first, p, place, from)
    }

    fn draw(&self, points: &mut [Spot], starts: &mut [usize], c: Chosen) -> Polygons {
        let s = &self.posed;
        draw_from(points, starts, s.parts, s.segs, s.q, c)
    }
}

// How deep the parts chosen by wa stand in the material that cb chooses, and those chosen by wb in that of ca.
fn sunk_between(
    points: &mut [Spot],
    mouths: &mut [Mouth],
    s: &Posed,
    wa: Chosen,
    ca: Chosen,
    wb: Chosen,
    cb: Chosen,
) -> Both
    requires { let n = start_of_part s.now.parts.now s.now.parts.now.count in (16 * n ≤ length points.old) × (2 * n ≤ length mouths.old) }
    ensures { let o = outlines_in s.now.segs.now in
        (result.into ≡ sunk_of s.now.parts.now o s.now.q (owner_at wa) (chosen_material s.now.parts.now o s.now.q cb))
        × (result.back ≡ sunk_of s.now.parts.now o s.now.q (owner_at wb) (chosen_material s.now.parts.now o s.now.q ca)) }
{
    let n = draw_mouths(mouths, *s.parts, s.segs);
    let placed = PlacedSamples {
        posed: *s,
        mouths: &mouths[..n],
    };
    sunk_both(points, &placed, wa, ca, wb, cb)
}

// ---- pair_overlap

// The parts that `names` holds of and that are sampled.
fn owners_of<F: Fn(usize) -> bool>(ps: &Parts, names: F) -> Chosen
    requires { (i : _) → F.pre names i }
    ensures { (p : ℕ → Bool) → ((i : ℕ) (r : Bool) → i < 32 → F.post names i r → r ≡ p i) → result ≡ as_owners (λ i. p i && is_sampled (part_at ps.now i)) }
{
    let mut what = [0u8; 32];
    for i in 0..32 {
        what[i] = what_is(names(i) & is_sampled(ps.part[i]), false);
    }
    Chosen { what }
}

fn features_overlap(
    points: &mut [Spot],
    mouths: &mut [Mouth],
    s: &Posed,
    a: Surface,
    b: Surface,
) -> f64
    requires { let n = start_of_part s.now.parts.now s.now.parts.now.count in (16 * n ≤ length points.old) × (2 * n ≤ length mouths.old) }
    ensures { result ≡ features_overlap s.now.parts.now (outlines_in s.now.segs.now) s.now.q a b }
{
    let d = sunk_between(
        points,
        mouths,
        s,
        owners_of(s.parts, |i| is_own(a, i)),
        side_chosen(*s.parts, a, true),
        owners_of(s.parts, |i| is_own(b, i)),
        side_chosen(*s.parts, b, true),
    );
    max(max(0.0, d.into), d.back)
}

fn center_overlap(points: &mut [Spot], s: &Posed, a: Surface, b: Surface) -> f64
    requires { (side_drawn s.now.parts.now b ≡ true) × (16 * start_of_part s.now.parts.now s.now.parts.now.count ≤ length points.old) }
    ensures { result ≡ center_overlap s.now.parts.now (outlines_in s.now.segs.now) s.now.q a b }
{
    let c = center_of(*s.parts, s.segs, b, true);
    let place = placement_at(s.q, c.body);
    let mut starts = [0usize; 33];
    let w = side_chosen(*s.parts, a, false);
    let n = draw_from(points, &mut starts, s.parts, s.segs, s.q, w);
    n.held(points, &starts).depth(place.world(c.at))
}

fn overlap_of_drawn(points: &mut [Spot], mouths: &mut [Mouth], s: &Posed, p: ContactPair) -> f64
    requires { let n = start_of_part s.now.parts.now s.now.parts.now.count in
        (pair_drawn s.now.parts.now p ≡ true) × (16 * n ≤ length points.old) × (2 * n ≤ length mouths.old) }
    ensures { result ≡ pair_overlap s.now.parts.now (outlines_in s.now.segs.now) s.now.q p }
{
    match p.geometry {
        PairGeometry::Features => features_overlap(points, mouths, s, p.a, p.b),
        PairGeometry::CenterBearing => center_overlap(points, s, p.a, p.b),
    }
}

// How deep the two sides of a pair stand in one another; zero where a side is not drawn.
fn overlap_over(
    points: &mut [Spot],
    mouths: &mut [Mouth],
    ps: &Parts,
    segs: &[SegRow],
    q: Pose,
    p: ContactPair,
) -> f64
    requires { (segs_counted ps.now ≤ length segs.now) × (16 * segs_counted ps.now ≤ length points.old) × (2 * segs_counted ps.now ≤ length mouths.old) }
    ensures { result ≡ pair_overlap_at ps.now (outlines_in segs.now) q p }
{
    if pair_drawn(*ps, p) {
        let s = Posed {
            parts: ps,
            segs,
            starts: part_starts(ps),
            q,
        };
        return overlap_of_drawn(points, mouths, &s, p);
    }
    0.0
}

// The same of outlines as a value, for any values.
pub fn pair_overlap_at(ps: Parts, o: Outlines, q: Pose, p: ContactPair) -> f64
    ensures { result ≡ pair_overlap_at ps o q p }
{
    let mut segs = [[0.0; 8]; 384];
    let mut points = [[0.0; 2]; 6144];
    let mut mouths = [[0.0; 4]; 768];
    put_segs(&mut segs, o, segs_counted(ps));
    overlap_over(&mut points, &mut mouths, &ps, &segs, q, p)
}

fn pair_at(pairs: &Pairs, i: usize) -> ContactPair
    requires { i < 16 }
    ensures { result ≡ pair_at pairs.now i }
{
    pairs.pair[i]
}

// The answer for pair `pair` of a description whose outlines stand in rows.
fn pair_answer(
    points: &mut [Spot],
    mouths: &mut [Mouth],
    segs: &[SegRow],
    m: &Mechanism,
    q: Pose,
    pair: usize,
) -> Result<f64, Problem>
    requires { (segs_counted m.now.parts ≤ length segs.now) × (16 * segs_counted m.now.parts ≤ length points.old) × (2 * segs_counted m.now.parts ≤ length mouths.old) }
    ensures { result ≡ pair_overlap_answer (described m.now.bodies m.now.parts segs.now m.now.pairs) q pair }
{
    then_called(
        check_in(m.bodies, m.parts, segs, m.pairs),
        q.fits(m.bodies),
        pair < m.pairs.count,
        true,
    )?;
    let p = pair_at(&m.pairs, pair);
    let s = Posed {
        parts: &m.parts,
        segs,
        starts: part_starts(&m.parts),
        q,
    };
    Ok(overlap_of_drawn(points, mouths, &s, p))
}

// The same with room of its own for so many segments, drawn points and mouths of cuts.
fn pair_overlap_with<const SEGS: usize, const POINTS: usize, const MOUTHS: usize>(
    m: &Mechanism,
    q: Pose,
    pair: usize,
) -> Result<f64, Problem>
    requires { (segs_counted m.now.parts ≤ SEGS) × (SEGS ≤ 384) × (16 * SEGS ≤ POINTS) × (POINTS ≤ 6144) × (2 * SEGS ≤ MOUTHS) × (MOUTHS ≤ 768)
        × (length m.now.outlines.seg ≡ 384) }
    ensures { result ≡ pair_overlap_answer m.now q pair }
{
    let mut segs = [[0.0; 8]; SEGS];
    let mut points = [[0.0; 2]; POINTS];
    let mut mouths = [[0.0; 4]; MOUTHS];
    put_segs(&mut segs, m.outlines, segs_counted(m.parts));
    pair_answer(&mut points, &mut mouths, &segs, m, q, pair)
}

// How deep the two sides of a pair stand in one another at a pose. The outlines are read once, into rows; few of them need little room. Each room is a call of its own: a
// function pays for all its arrays when it is entered.
#[tactic(auto, using(mechanism::proofs::Known::description_long))]
pub fn pair_overlap(m: Mechanism, q: Pose, pair: usize) -> Result<f64, Problem>
    ensures { result ≡ pair_overlap_answer m q pair }
{
    let n = segs_counted(m.parts);
    if n <= 32 {
        return pair_overlap_with::<32, 512, 64>(&m, q, pair);
    }
    if n <= 128 {
        return pair_overlap_with::<128, 2048, 256>(&m, q, pair);
    }
    pair_overlap_with::<384, 6144, 768>(&m, q, pair)
}

// The deepest of the pairs of a description whose outlines stand in rows.
fn deepest_pair(
    points: &mut [Spot],
    mouths: &mut [Mouth],
    ps: &Parts,
    segs: &[SegRow],
    q: Pose,
    pairs: &Pairs,
) -> f64
    requires { (segs_counted ps.now ≤ length segs.now) × (16 * segs_counted ps.now ≤ length points.old) × (2 * segs_counted ps.now ≤ length mouths.old) × (pairs.now.count ≤ 16) }
    ensures { result ≡ fold_in (λ d i. max_of d (pair_overlap_at ps.now (outlines_in segs.now) q (pair_at pairs.now i))) zero_f pairs.now.count 0 }
{
    let mut d = 0.0;
    for i in 0..pairs.count {
        d = max(
            d,
            overlap_over(points, mouths, ps, segs, q, pair_at(pairs, i)),
        );
    }
    d
}

// The same with room of its own. The outlines are put into rows once for all pairs.
fn overlap_of_pairs(m: &Mechanism, q: Pose) -> f64
    requires { (m.now.pairs.count ≤ 16) × (length m.now.outlines.seg ≡ 384) }
    ensures { result ≡ fold_in (λ d i. max_of d (pair_overlap_at m.now.parts m.now.outlines q (pair_at m.now.pairs i))) zero_f m.now.pairs.count 0 }
{
    let mut segs = [[0.0; 8]; 384];
    let mut points = [[0.0; 2]; 6144];
    let mut mouths = [[0.0; 4]; 768];
    put_segs(&mut segs, m.outlines, segs_counted(m.parts));
    deepest_pair(&mut points, &mut mouths, &m.parts, &segs, q, &m.pairs)
}

// How deep the parts of all pairs stand in one another at a pose.
pub fn overlap(m: Mechanism, q: Pose) -> Result<f64, Problem>
    ensures { result ≡ overlap_answer m q }
{
    call_checked(m, q.fits(m.bodies), true, true)?;
    Ok(overlap_of_pairs(&m, q))
}

// ---- parts_overlap

// Whether every number names a part.
fn all_parts(l: &[usize], n: usize) -> bool
    ensures { result ≡ list_all (λ i. ltb i n) l.now }
{
    l.iter().all(|x| *x < n)
}

// Whether a list has i.
#[tactic(auto, using(crate::proofs::Flags::any_listed))]
fn is_in(l: &[usize], i: usize) -> bool
    ensures { result ≡ is_in l.now i }
{
    l.contains(&i)
}

// Whether one of the owners lies on a body.
fn any_on(ps: &Parts, w: Chosen, body: usize) -> bool
    requires { FewParts ps.now }
    ensures { result ≡ any_in (λ j. owner_at w j && eqb (part_at ps.now j).body body) ps.now.count 0 }
{
    for j in 0..ps.count {
        if (w.what[j] == 1) & (ps.part[j].body == body) {
            return true;
        }
    }
    false
}

// The owners, less the cuts of their bodies.
fn owners_chosen(ps: &Parts, w: Chosen) -> Chosen
    requires { FewParts ps.now }
    ensures { let on_body = λ (i : ℕ). any_in (λ j. owner_at w j && eqb (part_at ps.now j).body (part_at ps.now i).body) ps.now.count 0 in
        result ≡ record { what = list_in (λ i. what_is (owner_at w i) (is_read_cut (part_at ps.now i) && on_body i)) 32 0 } }
{
    let mut what = [0u8; 32];
    for i in 0..32 {
        let p = ps.part[i];
        let cut = is_read_cut(p) & any_on(ps, w, p.body);
        what[i] = what_is(w.what[i] == 1, cut);
    }
    Chosen { what }
}

fn overlap_of_parts(m: &Mechanism, q: Pose, a: &[usize], b: &[usize]) -> f64
    requires { FewParts m.now.parts × (all_parts m.now.parts a.now ≡ true) × (all_parts m.now.parts b.now ≡ true) × (length m.now.outlines.seg ≡ 384) }
    ensures { result ≡ parts_overlap m.now.parts m.now.outlines q a.now b.now }
{
    let ps = &m.parts;
    let wa = owners_of(ps, |i| is_in(a, i));
    let wb = owners_of(ps, |i| is_in(b, i));
    let mut segs = [[0.0; 8]; 384];
    let mut points = [[0.0; 2]; 6144];
    let mut mouths = [[0.0; 4]; 768];
    put_segs(&mut segs, m.outlines, segs_counted(m.parts));
    let s = Posed {
        parts: ps,
        segs: &segs,
        starts: part_starts(ps),
        q,
    };
    let d = sunk_between(
        &mut points,
        &mut mouths,
        &s,
        wa,
        owners_chosen(ps, wa),
        wb,
        owners_chosen(ps, wb),
    );
    max(d.into, d.back)
}

// How deep the parts of two lists stand in one another at a pose.
pub fn parts_overlap(m: Mechanism, q: Pose, a: &[usize], b: &[usize]) -> Result<f64, Problem>
    ensures { result ≡ parts_overlap_answer m q a.now b.now }
{
    let n = m.parts.count;
    call_checked(m, q.fits(m.bodies), all_parts(a, n) & all_parts(b, n), true)?;
    Ok(overlap_of_parts(&m, q, a, b))
}

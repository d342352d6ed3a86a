// Parts and their silhouettes (contact/mod.rs).
#![tactic(auto)]

ghost use Rattle.std.specs.Prelude.{◌≡◌, cond, [], map, reverse, ◌+◌, ◌-◌, ◌<◌, ◌≤◌, take, drop};
ghost use Rattle.std.proofs.lemmas.List.Edits.{sets};
ghost use Rattle.mechanism.specs.Check.{FewParts};
ghost use Rattle.mechanism.specs.Description.{start_of_part, segs_of, part_at};
ghost use Rattle.silhouette.specs.Silhouette.{axis_of, in_the_section, shifted_of, sided, flip_of, about_axis, reversed_of, start_in, end_in, no_line, chain_of, turned_seg, mirrored, revolved_of, silhouette_of, joins_next, closed_of, boxed, outline_in, as_silhouette, is_part, outline_of, silhouette_at};

pub mod rows;

use geometry::{Dir, Point, Seg};
use ieee::num::{abs, plain_zero};
use mechanism::check::{parts_over, same_point};
use mechanism::part::{OutlineSeg, Sweep};
use mechanism::{Outlines, Parts};

// A part's outline: the first `count` segments.
#[derive(Clone, Copy)]
pub struct Outline {
    pub count: usize,
    pub seg: [OutlineSeg; 48],
}

// A part as the section sees it: the first `count` segments.
#[derive(Clone, Copy)]
pub struct SilhouetteSegs {
    pub count: usize,
    pub seg: [OutlineSeg; 94],
}

// The abscissa of the axis that a part is turned about, -0.0 read as +0.0.
pub fn axis(sweep: Sweep) -> Option<f64>
    ensures { result ≡ axis_of sweep }
{
    match sweep {
        Sweep::Revolved { axis } => Some(plain_zero(axis)),
        Sweep::Extruded { .. } | Sweep::Milled { .. } | Sweep::Oval { .. } => None,
    }
}

// Whether the plane of the section cuts a part.
pub fn is_in_the_section(sweep: Sweep) -> bool
    ensures { result ≡ in_the_section sweep }
{
    match sweep {
        Sweep::Extruded { width, across } => (across == 0.0) | (2.0 * abs(across) < width),
        Sweep::Revolved { .. } | Sweep::Milled { .. } | Sweep::Oval { .. } => true,
    }
}

// ---- a segment about the axis, and its mirror

fn shifted(p: Point, dx: f64) -> Point
    ensures { result ≡ shifted_of p dx }
{
    Point {
        x: dx + p.x,
        y: p.y,
    }
}

// The abscissa multiplied: by 1 for the chain, by -1 for its mirror.
fn on_side(side: f64, p: Point) -> Point
    ensures { result ≡ sided side p }
{
    Point {
        x: side * p.x,
        y: p.y,
    }
}

#[tactic(auto, unfolding(crate::specs::Silhouette::flip_of))]
fn flip(d: Dir) -> Dir
    ensures { result ≡ flip_of d }
{
    geometry::Dir::new(-d.x, d.y).unwrap_or(d)
}

#[tactic(auto, unfolding(crate::specs::Silhouette::about_axis))]
fn about_axis(seg: Seg, axis: f64, side: f64) -> Seg
    ensures { result ≡ about_axis seg axis side }
{
    match seg {
        Seg::Line { a, b } => Seg::Line {
            a: shifted(on_side(side, a), axis),
            b: shifted(on_side(side, b), axis),
        },
        Seg::Arc { c, r, from, to } => {
            let center = shifted(on_side(side, c), axis);
            if 0.0 < side {
                Seg::Arc {
                    c: center,
                    r,
                    from,
                    to,
                }
            } else {
                Seg::Arc {
                    c: center,
                    r,
                    from: flip(to),
                    to: flip(from),
                }
            }
        }
    }
}

// A line run the other way; an arc always runs counter-clockwise.
fn reversed(seg: Seg) -> Seg
    ensures { result ≡ reversed_of seg }
{
    match seg {
        Seg::Line { a, b } => Seg::Line { a: b, b: a },
        Seg::Arc { .. } => seg,
    }
}

// ---- the chain

// A line's start carried in to the axis.
fn start_in(seg: Seg) -> Seg
    ensures { result ≡ start_in seg }
{
    match seg {
        Seg::Line { a, b } => Seg::Line {
            a: Point { x: 0.0, y: a.y },
            b,
        },
        Seg::Arc { .. } => seg,
    }
}

// A line's end carried in to the axis.
fn end_in(seg: Seg) -> Seg
    ensures { result ≡ end_in seg }
{
    match seg {
        Seg::Line { a, b } => Seg::Line {
            a,
            b: Point { x: 0.0, y: b.y },
        },
        Seg::Arc { .. } => seg,
    }
}

// The outline without its last segment, its two ends carried in to the axis.
fn chain(o: Outline) -> Outline
    requires { (2 ≤ o.count) × (o.count ≤ 48) }
    ensures { (result.count ≡ o.count - 1) × (outline_in result ≡ chain_of (outline_in o)) }
{
    let n = o.count - 1;
    let mut seg = o.seg;
    seg[0] = OutlineSeg {
        seg: start_in(seg[0].seg),
    };
    seg[n - 1] = OutlineSeg {
        seg: end_in(seg[n - 1].seg),
    };
    Outline { count: n, seg }
}

// ---- Part::silhouette

fn no_line() -> OutlineSeg
    ensures { result ≡ boxed no_line }
{
    OutlineSeg {
        seg: Seg::Line {
            a: Point { x: 0.0, y: 0.0 },
            b: Point { x: 0.0, y: 0.0 },
        },
    }
}

// The chain about the axis.
fn turned(o: Outline, axis: f64) -> SilhouetteSegs
    requires { o.count ≤ 47 }
    ensures { result ≡ as_silhouette (map (turned_seg axis) (outline_in o)) }
{
    let mut seg = [no_line(); 94];
    for i in 0..o.count {
        seg[i] = OutlineSeg {
            seg: about_axis(o.seg[i].seg, axis, 1.0),
        };
    }
    SilhouetteSegs {
        count: o.count,
        seg,
    }
}

// Behind it the chain's mirror, run backwards.
fn mirror(o: Outline, axis: f64, s: SilhouetteSegs) -> SilhouetteSegs
    requires { (o.count ≤ 47) × (s.count + o.count ≤ 94) }
    ensures { (result.count ≡ s.count + o.count) × (result.seg ≡ sets s.seg s.count (map boxed (map (mirrored axis) (reverse (outline_in o))))) }
{
    let mut seg = s.seg;
    for i in 0..o.count {
        seg[s.count + i] = OutlineSeg {
            seg: reversed(about_axis(o.seg[o.count - 1 - i].seg, axis, -1.0)),
        };
    }
    SilhouetteSegs {
        count: s.count + o.count,
        seg,
    }
}

// The outline as it is.
fn plain(o: Outline) -> SilhouetteSegs
    requires { o.count ≤ 48 }
    ensures { result ≡ as_silhouette (outline_in o) }
{
    let mut seg = [no_line(); 94];
    for i in 0..o.count {
        seg[i] = o.seg[i];
    }
    SilhouetteSegs {
        count: o.count,
        seg,
    }
}

fn revolved(o: Outline, axis: f64) -> SilhouetteSegs
    requires { (2 ≤ o.count) × (o.count ≤ 48) }
    ensures { result ≡ as_silhouette (revolved_of axis (chain_of (outline_in o))) }
{
    let c = chain(o);
    let t = turned(c, axis);
    mirror(c, axis, t)
}

fn no_silhouette() -> SilhouetteSegs
    ensures { result ≡ as_silhouette [] }
{
    let seg = [no_line(); 94];
    SilhouetteSegs { count: 0, seg }
}

// An outline with a count that its array has.
fn counted(o: Outline) -> Outline
    ensures { (result.count ≤ 48) × (outline_in result ≡ outline_in o) }
{
    if o.count <= 48 {
        return o;
    }
    let seg = o.seg;
    Outline { count: 48, seg }
}

// The part as the section sees it: its outline, or, turned about an axis, its chain and the chain's mirror.
fn silhouette_counted(o: Outline, sweep: Sweep) -> SilhouetteSegs
    requires { o.count ≤ 48 }
    ensures { result ≡ as_silhouette (silhouette_of sweep (outline_in o)) }
{
    match axis(sweep) {
        None => plain(o),
        Some(x) => {
            if o.count < 2 {
                no_silhouette()
            } else {
                revolved(o, x)
            }
        }
    }
}

// ---- Part::is_closed

// Whether segment i ends where the next begins.
fn joins_next(o: Outline, i: usize) -> bool
    requires { (i < o.count) × (o.count ≤ 48) }
    ensures { result ≡ joins_next (outline_in o) i }
{
    let k = (i + 1) % o.count;
    same_point(o.seg[i].seg.end(), o.seg[k].seg.start())
}

fn closed_counted(o: Outline) -> bool
    requires { o.count ≤ 48 }
    ensures { result ≡ closed_of (outline_in o) }
{
    if o.count < 2 {
        return false;
    }
    for i in 0..o.count {
        if !joins_next(o, i) {
            return false;
        }
    }
    true
}

// Whether each segment ends where the next begins, and the last where the first begins, bit for bit. Refusal 7 asks this of a part's outline, and that its ends are finite (`ClosedAs7`).
pub fn is_closed(o: Outline) -> bool
    ensures { result ≡ closed_of (outline_in o) }
{
    closed_counted(counted(o))
}

// ---- of a description

fn is_part(ps: Parts, i: usize) -> bool
    ensures { result ≡ is_part ps i }
{
    !parts_over(ps) & (i < ps.count)
}

// Where the outline of part i starts.
fn start_of(ps: Parts, i: usize) -> usize
    requires { FewParts ps × (i < ps.count) }
    ensures { result ≡ start_of_part ps i }
{
    let mut at = 0;
    for k in 0..i {
        at += ps.part[k].segs;
    }
    at
}

// Where the outline of part i starts; 0 where there is no such part.
#[tactic(auto, using(crate::proofs::Lengths::part_of))]
pub fn start_of_part(ps: Parts, i: usize) -> usize
    ensures { result ≡ cond (is_part ps i) (start_of_part ps i) 0 }
{
    if is_part(ps, i) {
        return start_of(ps, i);
    }
    0
}

// The n segments from `at` on.
fn segs_from(o: Outlines, at: usize, n: usize) -> Outline
    requires { (at + n ≤ 384) × (n ≤ 48) }
    ensures { (result.count ≡ n) × (outline_in result ≡ map (λ b. b.seg) (take n (drop at o.seg))) }
{
    let mut seg = [no_line(); 48];
    for i in 0..n {
        seg[i] = o.seg[at + i];
    }
    Outline { count: n, seg }
}

#[tactic(auto, unfolding(crate::specs::Silhouette::outline_of))]
fn outline_of(ps: Parts, o: Outlines, i: usize) -> Outline
    requires { FewParts ps × (i < ps.count) }
    ensures { (result.count ≡ segs_of ps i) × (outline_in result ≡ outline_of ps o i) }
{
    segs_from(o, start_of(ps, i), ps.part[i].segs)
}

fn silhouette_of(ps: Parts, o: Outlines, i: usize) -> SilhouetteSegs
    requires { FewParts ps × (i < ps.count) }
    ensures { result ≡ as_silhouette (silhouette_of (part_at ps i).sweep (outline_of ps o i)) }
{
    silhouette_counted(outline_of(ps, o, i), ps.part[i].sweep)
}

// The silhouette of part i, without segments where there is no such part.
#[tactic(auto, unfolding(crate::specs::Silhouette::silhouette_at), using(crate::proofs::Lengths::part_of))]
pub fn silhouette_at(ps: Parts, o: Outlines, i: usize) -> SilhouetteSegs
    ensures { result ≡ as_silhouette (silhouette_at ps o i) }
{
    if is_part(ps, i) {
        silhouette_of(ps, o, i)
    } else {
        no_silhouette()
    }
}

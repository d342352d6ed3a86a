// The segments of all outlines as rows of numbers in a lent array, so that a reading copies none of them.
ghost use Rattle.std.specs.Prelude.{◌≡◌, cond, ◌≤◌, length};
ghost use Rattle.std.proofs.lemmas.List.Edits.{sets};
ghost use Rattle.mechanism.specs.Description.{seg_at};
ghost use Rattle.mechanism.specs.Segments.{seg_row, seg_from, outlines_in, seg_rows, segs_fit};

use super::Outlines;
use geometry::{Dir, Point, Seg};

// A segment: 0 and a line's two ends, or 1 and an arc's centre, radius and two directions.
pub type SegRow = [f64; 8];

pub fn seg_row(s: Seg) -> SegRow
    ensures { result ≡ seg_row s }
{
    match s {
        Seg::Line { a, b } => [0.0, a.x, a.y, b.x, b.y, 0.0, 0.0, 0.0],
        Seg::Arc { c, r, from, to } => [1.0, c.x, c.y, r, from.x, from.y, to.x, to.y],
    }
}

#[tactic(auto, unfolding(crate::specs::Segments::seg_from))]
pub fn seg_from(r: SegRow) -> Seg
    ensures { result ≡ seg_from r }
{
    if r[0] == 1.0 {
        return Seg::Arc {
            c: Point { x: r[1], y: r[2] },
            r: r[3],
            from: Dir { x: r[4], y: r[5] },
            to: Dir { x: r[6], y: r[7] },
        };
    }
    Seg::Line {
        a: Point { x: r[1], y: r[2] },
        b: Point { x: r[3], y: r[4] },
    }
}

// Segment i; where there is no such row, a line without numbers.
#[tactic(auto, using(crate::proofs::SegRows::segs_read))]
pub fn seg_at(segs: &[SegRow], i: usize) -> Seg
    ensures { result ≡ seg_at (outlines_in segs.now) i }
{
    if i < segs.len() {
        return seg_from(segs[i]);
    }
    let none = Point {
        x: f64::NAN,
        y: f64::NAN,
    };
    Seg::Line { a: none, b: none }
}

// Writes the first n rows of an array that has room for them.
fn put_rows(out: &mut [SegRow], o: Outlines, n: usize)
    requires { (n ≤ 384) × (n ≤ length out.old) }
    ensures { out.new ≡ sets out.old 0 (seg_rows o n) }
{
    for i in 0..n {
        out[i] = seg_row(o.seg[i].seg);
    }
}

fn segs_fit(n: usize, room: usize) -> bool
    ensures { result ≡ segs_fit n room }
{
    n <= 384 && n <= room
}

// Writes the rows of the first n segments; nothing where there are not so many, or the array is too short.
pub fn put_segs(out: &mut [SegRow], o: Outlines, n: usize)
    ensures { out.new ≡ cond (segs_fit n (length out.old)) (sets out.old 0 (seg_rows o n)) out.old }
{
    if segs_fit(n, out.len()) {
        put_rows(out, o, n);
    }
}

// The silhouette of a part whose outline stands in lent rows, segment by segment.
ghost use Rattle.std.specs.Prelude.{◌≡◌, ◌+◌, ◌-◌, ◌<◌, ◌≤◌, length, get_or};
ghost use Rattle.mechanism.specs.Segments.{outlines_in};
ghost use Rattle.silhouette.specs.Silhouette.{no_line, chain_of, revolved_of, outline_from, silhouette_from, silhouette_count};

use super::{about_axis, axis, end_in, no_line, reversed, start_in};
use geometry::{Point, Seg};
use mechanism::part::{OutlineSeg, Part, Sweep};
use mechanism::segments::{SegRow, seg_at};

fn no_seg() -> Seg
    ensures { result ≡ no_line }
{
    no_line().seg
}

// How many of the n segments from row `first` on there are.
fn left_of(segs: &[SegRow], first: usize, n: usize) -> usize
    ensures { (result ≡ length (outline_from (outlines_in segs.now) first n)) × (result ≤ length segs.now - first) }
{
    if segs.len() <= first {
        return 0;
    }
    n.min(segs.len() - first)
}

// Segment k of the n from row `first` on.
fn plain_seg(segs: &[SegRow], first: usize, n: usize, k: usize) -> Seg
    requires { n ≤ length segs.now - first }
    ensures { result ≡ get_or (outline_from (outlines_in segs.now) first n) k no_line }
{
    if k < n {
        return seg_at(segs, first + k);
    }
    no_seg()
}

// Segment k of their chain.
#[tactic(auto, using(crate::proofs::BySegment::chain_here))]
fn chain_seg(segs: &[SegRow], first: usize, n: usize, k: usize) -> Seg
    requires { (n ≤ length segs.now - first) × (k + 1 < n) }
    ensures { result ≡ get_or (chain_of (outline_from (outlines_in segs.now) first n)) k no_line }
{
    let s = seg_at(segs, first + k);
    let t = if k == 0 { start_in(s) } else { s };
    if k + 2 == n { end_in(t) } else { t }
}

// Segment k of the chain about the axis and its mirror.
fn turned_seg(segs: &[SegRow], first: usize, n: usize, x: f64, k: usize) -> Seg
    requires { (n ≤ length segs.now - first) × (2 ≤ n) }
    ensures { result ≡ get_or (revolved_of x (chain_of (outline_from (outlines_in segs.now) first n))) k no_line }
{
    let m = n - 1;
    if k < m {
        return about_axis(chain_seg(segs, first, n, k), x, 1.0);
    }
    let back = k - m;
    if back < m {
        return reversed(about_axis(chain_seg(segs, first, n, m - 1 - back), x, -1.0));
    }
    no_seg()
}

// Segment k of the silhouette of a part whose outline starts in row `first`; a line of zeros where there is none.
pub fn silhouette_seg(segs: &[SegRow], first: usize, p: Part, k: usize) -> Seg
    ensures { result ≡ get_or (silhouette_from (outlines_in segs.now) first p) k no_line }
{
    let n = left_of(segs, first, p.segs);
    match axis(p.sweep) {
        None => plain_seg(segs, first, n, k),
        Some(x) => {
            if n < 2 {
                no_seg()
            } else {
                turned_seg(segs, first, n, x, k)
            }
        }
    }
}

// How many segments the silhouette of a part has; none where the part passes a limit.
pub fn silhouette_count(p: Part) -> usize
    ensures { (result ≡ silhouette_count p) × (result ≤ 94) }
{
    let n = p.segs;
    if 48 < n {
        return 0;
    }
    match axis(p.sweep) {
        None => n,
        Some(_) => { if n == 0 { 0 } else { (n - 1) + (n - 1) } }
    }
}

// The drawn and the sampled points of all parts, as they stand in their bodies' frames, in tables.
ghost use Rattle.std.specs.Prelude.{◌≡◌, map, cond, ◌+◌, ◌*◌, ◌<◌, ◌≤◌, length};
ghost use Rattle.std.proofs.lemmas.List.Edits.{sets};
ghost use Rattle.laws.specs.Lists.{flat};
ghost use Rattle.mechanism.specs.Check.{parts_over, FewParts};
ghost use Rattle.mechanism.specs.Description.{start_of_part};
ghost use Rattle.mechanism.specs.Segments.{outlines_in};
ghost use Rattle.silhouette.specs.Silhouette.{silhouette_from, silhouette_count};
ghost use Rattle.drawing.specs.Drawing.{row_of};
ghost use Rattle.drawing.specs.Points.{drawn_of, sampled_of, drawn_up_to, sampled_up_to, drawn_table, sampled_table, part_table};
ghost use Rattle.drawing.specs.Samples.{samples_of, mouths_of, mouths_in};

use super::samples::{Mouth, draw_mouths, put_seg};
use super::{draw_polygon, is_sampled};
use mechanism::check::{parts_over, segs_counted};
use mechanism::part::Part;
use mechanism::segments::{SegRow, put_segs};
use mechanism::{Outlines, Parts};
use silhouette::rows::{silhouette_count, silhouette_seg};
use strips::{PartRow, PointRow};

// The drawn points of all parts.
pub type DrawnRows = [PointRow; 6144];

// The sampled points of all parts.
pub type SampledRows = [PointRow; 13056];

// The parts.
pub type PartRows = [PartRow; 32];

// Writes the samples of the silhouette of a part whose outline starts in row `first`, from `at` on.
fn put_sampled(
    out: &mut [PointRow],
    at: usize,
    segs: &[SegRow],
    first: usize,
    p: Part,
    mouths: &[Mouth],
) -> usize
    requires { (p.segs ≤ 48) × (first + p.segs ≤ length segs.now) × (at + 17 * silhouette_count p ≤ length out.old) }
    ensures { let ps = flat (samples_of (mouths_in mouths.now)) (silhouette_from (outlines_in segs.now) first p) in (result ≡ at + length ps) × (out.new ≡ sets out.old at (map row_of ps)) }
{
    let mut to = at;
    for i in 0..silhouette_count(p) {
        let s = silhouette_seg(segs, first, p, i);
        to = put_seg(out, to, s, &|x| x, mouths);
    }
    to
}

// Where the next part's points go.
#[derive(Clone, Copy)]
struct Next {
    drawn: usize,
    sampled: usize,
}

// Writes the points of part i, whose outline starts in row `first`, behind those of the parts before it.
fn put_part_points(
    drawn: &mut DrawnRows,
    sampled: &mut SampledRows,
    ps: Parts,
    segs: &[SegRow],
    mouths: &[Mouth],
    i: usize,
    first: usize,
    at: Next,
) -> Next
    requires room { FewParts ps × (i < ps.count) × (first ≡ start_of_part ps i) × (start_of_part ps ps.count ≤ length segs.now) }
    requires mouths { mouths_in mouths.now ≡ mouths_of ps (outlines_in segs.now) }
    requires places { (at.drawn ≡ length (drawn_up_to ps (outlines_in segs.now) i)) × (at.sampled ≡ length (sampled_up_to ps (outlines_in segs.now) i)) }
    ensures drawn { (result.drawn ≡ at.drawn + length (drawn_of ps (outlines_in segs.now) i)) × (drawn.new ≡ sets drawn.old at.drawn (map row_of (drawn_of ps (outlines_in segs.now) i))) }
    ensures sampled { let l = sampled_of ps (outlines_in segs.now) i in (result.sampled ≡ at.sampled + length l) × (sampled.new ≡ sets sampled.old at.sampled (map row_of l)) }
{
    let p = ps.part[i];
    let to = draw_polygon(drawn, at.drawn, segs, first, p, &|x| x);
    let end = if is_sampled(p) {
        put_sampled(sampled, at.sampled, segs, first, p, mouths)
    } else {
        at.sampled
    };
    Next {
        drawn: to,
        sampled: end,
    }
}

// Writes the points of all parts, and a row for each part.
fn put_parts(
    drawn: &mut DrawnRows,
    sampled: &mut SampledRows,
    parts: &mut PartRows,
    ps: Parts,
    segs: &[SegRow],
    mouths: &[Mouth],
)
    requires { FewParts ps × (start_of_part ps ps.count ≤ length segs.now) × (mouths_in mouths.now ≡ mouths_of ps (outlines_in segs.now)) }
    ensures drawn { drawn.new ≡ sets drawn.old 0 (drawn_table ps (outlines_in segs.now)) }
    ensures sampled { sampled.new ≡ sets sampled.old 0 (sampled_table ps (outlines_in segs.now)) }
    ensures parts { parts.new ≡ sets parts.old 0 (part_table ps (outlines_in segs.now)) }
{
    let mut first: usize = 0;
    let mut at = Next {
        drawn: 0,
        sampled: 0,
    };
    for i in 0..ps.count {
        let p = ps.part[i];
        let to = put_part_points(drawn, sampled, ps, segs, mouths, i, first, at);
        parts[i] = [
            p.body,
            at.drawn,
            to.drawn - at.drawn,
            at.sampled,
            to.sampled - at.sampled,
        ];
        at = to;
        first += p.segs;
    }
}

// Writes the points of all parts from the front of the arrays, and a row for each part; nothing where a limit is passed.
pub fn put_all_points(
    drawn: &mut DrawnRows,
    sampled: &mut SampledRows,
    parts: &mut PartRows,
    ps: Parts,
    o: Outlines,
)
    ensures drawn { drawn.new ≡ cond (parts_over ps) drawn.old (sets drawn.old 0 (drawn_table ps o)) }
    ensures sampled { sampled.new ≡ cond (parts_over ps) sampled.old (sets sampled.old 0 (sampled_table ps o)) }
    ensures parts { parts.new ≡ cond (parts_over ps) parts.old (sets parts.old 0 (part_table ps o)) }
{
    if parts_over(ps) {
        return;
    }
    let mut segs = [[0.0; 8]; 384];
    let mut mouths = [[0.0; 4]; 768];
    put_segs(&mut segs, o, segs_counted(ps));
    let n = draw_mouths(&mut mouths, ps, &segs);
    put_parts(drawn, sampled, parts, ps, &segs, &mouths[..n]);
}

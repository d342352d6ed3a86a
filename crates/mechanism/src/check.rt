// The refusals of a description as a value (document 01, "Refused, first that applies", 3 to 10).
ghost use Rattle.std.specs.Prelude.{◌≡◌, ◌||◌, ◌+◌, ◌≤◌, ◌<◌, is_ok};
ghost use Rattle.mechanism.specs.Description.{start_of_part, silhouette_length, range_length, turned_length};
ghost use Rattle.mechanism.specs.Segments.{outlines_in, described, segs_counted};
ghost use Rattle.mechanism.specs.Check.{side_over, pair_over, parts_over, pairs_over, limits_passed, sweep_lacks, seg_lacks, parts_lack, outlines_lack, point_finite};
ghost use Rattle.mechanism.specs.Check.{same_point, seg_open, outline_open, part_checked, parts_checked, part_draws, range_drawn, with_body, side_body, sides_checked};
ghost use Rattle.mechanism.specs.Check.{pairs_checked, check_of, then_called, call_checked, side_drawn, pair_drawn, FewParts, FewPairs};

use super::pair::{ContactPair, Surface};
use super::part::{Part, SurfaceRef, Sweep};
use super::segments::{SegRow, put_segs, seg_at};
use super::{Mechanism, Pairs, Parts};
use bodies::check::{bodies_stand, dir_lacks};
use bodies::{Bodies, Problem};
use geometry::{Point, Seg};
use ieee::num::{is_finite, is_nan, same};

// ---- 3: a count passes its limit

fn range_length(r: SurfaceRef) -> usize
    ensures { result ≡ range_length r }
{
    r.end.saturating_sub(r.start)
}

#[tactic(auto, using(bodies::proofs::Turns::fold_turns))]
fn side_over(u: Surface) -> bool
    ensures { result ≡ side_over u }
{
    if u.count > 4 {
        return true;
    }
    let mut total: usize = 0;
    for i in 0..u.count {
        let k = range_length(u.range[i]);
        if k > 12 {
            return true;
        }
        total += k;
    }
    total > 12
}

fn pair_over(p: ContactPair) -> bool
    ensures { result ≡ pair_over p }
{
    side_over(p.a) || side_over(p.b)
}

// Whether there are too many parts, or too many segments in one of them or in all.
#[tactic(auto, unfolding(crate::specs::Check::parts_over), using(bodies::proofs::Turns::any_turns, bodies::proofs::Turns::fold_turns))]
pub fn parts_over(p: Parts) -> bool
    ensures { result ≡ parts_over p }
{
    if p.count > 32 {
        return true;
    }
    let mut total: usize = 0;
    for i in 0..p.count {
        let k = p.part[i].segs;
        if k > 48 {
            return true;
        }
        total += k;
    }
    total > 384
}

#[tactic(auto, unfolding(crate::specs::Check::pairs_over), using(bodies::proofs::Turns::any_turns))]
fn pairs_over(p: Pairs) -> bool
    ensures { result ≡ pairs_over p }
{
    if p.count > 16 {
        return true;
    }
    for i in 0..p.count {
        if pair_over(p.pair[i]) {
            return true;
        }
    }
    false
}

fn limit_passed(b: Bodies, p: Parts, q: Pairs) -> bool
    ensures { result ≡ limits_passed b p q }
{
    b.count > 15 || b.coords > 16 || parts_over(p) || pairs_over(q)
}

// ---- 5: an arc's direction has no `Dir::new`, or a revolved axis is NaN

fn sweep_lacks(s: Sweep) -> bool
    ensures { result ≡ sweep_lacks s }
{
    match s {
        Sweep::Revolved { axis } => is_nan(axis),
        Sweep::Extruded { .. } | Sweep::Milled { .. } | Sweep::Oval { .. } => false,
    }
}

fn seg_lacks(s: Seg) -> bool
    ensures { result ≡ seg_lacks s }
{
    match s {
        Seg::Line { .. } => false,
        Seg::Arc { from, to, .. } => dir_lacks(from) || dir_lacks(to),
    }
}

#[tactic(auto, unfolding(crate::specs::Check::parts_lack))]
fn parts_lack(p: Parts) -> bool
    requires { p.count ≤ 32 }
    ensures { result ≡ parts_lack p }
{
    p.part[..p.count].iter().any(|q| sweep_lacks(q.sweep))
}

#[tactic(auto, unfolding(crate::specs::Check::outlines_lack), using(bodies::proofs::Turns::any_turns))]
fn outlines_lack(segs: &[SegRow], n: usize) -> bool
    ensures { result ≡ outlines_lack (outlines_in segs.now) n }
{
    for i in 0..n {
        if seg_lacks(seg_at(segs, i)) {
            return true;
        }
    }
    false
}

// ---- 6 and 7, part by part: a part names no body; its outline is not finite or not closed

fn point_finite(p: Point) -> bool
    ensures { result ≡ point_finite p }
{
    is_finite(p.x) && is_finite(p.y)
}

// Bit for bit, two NaNs being the same.
pub fn same_point(p: Point, q: Point) -> bool
    ensures { result ≡ same_point p q }
{
    same(p.x, q.x) && same(p.y, q.y)
}

// Whether a segment is not finite, or does not end where the next begins.
fn is_open(s: Seg, next: Seg) -> bool
    ensures { result ≡ seg_open s next }
{
    let a = s.start();
    let b = s.end();
    !(point_finite(a) && point_finite(b) && same_point(b, next.start()))
}

// Whether of the n segments from `at` on there are fewer than two, or one is open.
#[tactic(auto, unfolding(crate::specs::Check::outline_open), using(bodies::proofs::Turns::any_turns))]
fn outline_open(segs: &[SegRow], at: usize, n: usize) -> bool
    requires { (at + n ≤ 384) × (n ≤ 48) }
    ensures { result ≡ outline_open (outlines_in segs.now) at n }
{
    if n < 2 {
        return true;
    }
    for i in 0..n {
        if is_open(seg_at(segs, at + i), seg_at(segs, at + (i + 1) % n)) {
            return true;
        }
    }
    false
}

fn part_checked(bodies: usize, segs: &[SegRow], p: Part, at: usize, i: usize) -> Result<(), Problem>
    requires { (at + p.segs ≤ 384) × (p.segs ≤ 48) }
    ensures { result ≡ part_checked bodies (outlines_in segs.now) p at i }
{
    if p.body > bodies {
        return Err(Problem::PartOnNoSuchBody { part: i });
    }
    if outline_open(segs, at, p.segs) {
        return Err(Problem::OutlineNotClosed { part: i });
    }
    Ok(())
}

#[tactic(auto, unfolding(crate::specs::Check::parts_checked), using(crate::proofs::Walks::part_turns))]
fn parts_checked(bodies: usize, p: Parts, segs: &[SegRow]) -> Result<(), Problem>
    requires { FewParts p }
    ensures { result ≡ parts_checked bodies p (outlines_in segs.now) }
{
    let mut at: usize = 0;
    for i in 0..p.count {
        part_checked(bodies, segs, p.part[i], at, i)?;
        at += p.part[i].segs;
    }
    Ok(())
}

// ---- 8 to 10, pair by pair

// How many segments a silhouette has whose outline has n.
fn silhouette_length(s: Sweep, n: usize) -> usize
    requires { n ≤ 48 }
    ensures { result ≡ silhouette_length s n }
{
    match s {
        Sweep::Revolved { .. } => turned_length(n),
        Sweep::Extruded { .. } | Sweep::Milled { .. } | Sweep::Oval { .. } => n,
    }
}

fn turned_length(n: usize) -> usize
    requires { n ≤ 48 }
    ensures { result ≡ turned_length n }
{
    2 * n.saturating_sub(1)
}

// Whether a range holds a segment of the part's silhouette and stays within it.
fn part_draws(p: Part, r: SurfaceRef) -> bool
    requires { p.segs ≤ 48 }
    ensures { result ≡ part_draws p r }
{
    r.start < r.end && r.end <= silhouette_length(p.sweep, p.segs)
}

// The same where there may be no such part.
fn range_drawn(ps: Parts, r: SurfaceRef) -> bool
    requires { FewParts ps }
    ensures { result ≡ range_drawn ps r }
{
    r.part < ps.count && part_draws(ps.part[r.part], r)
}

// The body of a side's ranges so far, and of one range more.
fn with_body(pair: usize, s: Option<usize>, body: usize) -> Result<Option<usize>, Problem>
    ensures { result ≡ with_body pair s body }
{
    match s {
        Some(b) if b != body => Err(Problem::SideOnTwoBodies { pair }),
        _ => Ok(Some(body)),
    }
}

// The body that a side's ranges lie on.
#[tactic(auto, unfolding(crate::specs::Check::side_body), using(bodies::proofs::Turns::fold_turns))]
fn side_body(ps: Parts, pair: usize, u: Surface) -> Result<usize, Problem>
    requires { FewParts ps × (u.count ≤ 4) }
    ensures { result ≡ side_body ps pair u }
{
    let mut body = None;
    for i in 0..u.count {
        let r = u.range[i];
        if !range_drawn(ps, r) {
            return Err(Problem::RangeNotDrawn { pair });
        }
        body = with_body(pair, body, ps.part[r.part].body)?;
    }
    body.ok_or(Problem::RangeNotDrawn { pair })
}

fn pair_checked(ps: Parts, q: ContactPair, i: usize) -> Result<(), Problem>
    requires { FewParts ps × (q.a.count ≤ 4) × (q.b.count ≤ 4) }
    ensures { result ≡ sides_checked i (side_body ps i q.a) (side_body ps i q.b) }
{
    if side_body(ps, i, q.a)? == side_body(ps, i, q.b)? {
        return Err(Problem::PairOnOneBody { pair: i });
    }
    Ok(())
}

#[tactic(auto, unfolding(crate::specs::Check::pairs_checked), using(bodies::proofs::Turns::first_turns))]
fn pairs_checked(ps: Parts, pairs: Pairs) -> Result<(), Problem>
    requires { FewParts ps × FewPairs pairs }
    ensures { result ≡ pairs_checked ps pairs }
{
    for i in 0..pairs.count {
        pair_checked(ps, pairs.pair[i], i)?;
    }
    Ok(())
}

// ---- the whole

// How many segments all outlines have.
#[tactic(auto, using(bodies::proofs::Turns::fold_turns))]
fn segs_in_all(p: Parts) -> usize
    requires { FewParts p }
    ensures { result ≡ start_of_part p p.count }
{
    let mut total: usize = 0;
    for i in 0..p.count {
        total += p.part[i].segs;
    }
    total
}

// How many segments the parts have; none where they pass a limit.
#[tactic(auto, using(crate::proofs::Checks::parts_counted))]
pub fn segs_counted(p: Parts) -> usize
    ensures { (result ≡ segs_counted p) × (result ≤ 384) }
{
    if parts_over(p) {
        return 0;
    }
    segs_in_all(p)
}

// 5 of the parts and their outlines.
fn direction_missing(p: Parts, segs: &[SegRow]) -> bool
    requires { FewParts p }
    ensures { result ≡ parts_lack p || outlines_lack (outlines_in segs.now) (start_of_part p p.count) }
{
    parts_lack(p) || outlines_lack(segs, segs_in_all(p))
}

// Whether a description whose outlines stand in rows is accepted, or the first refusal that applies.
#[tactic(auto, unfolding(crate::specs::Check::limit_passed), using(crate::proofs::Checks::check_is, crate::proofs::Checks::parts_within, crate::proofs::Checks::pairs_within))]
pub fn check_in(b: Bodies, p: Parts, segs: &[SegRow], q: Pairs) -> Result<(), Problem>
    ensures { result ≡ check_of (described b p segs.now q) }
{
    if limit_passed(b, p, q) {
        return Err(Problem::LimitPassed);
    }
    bodies_stand(b)?;
    if direction_missing(p, segs) {
        return Err(Problem::NoDirection);
    }
    parts_checked(b.count, p, segs)?;
    pairs_checked(p, q)
}

// Whether a description is accepted, or the first refusal that applies.
pub fn check(m: Mechanism) -> Result<(), Problem>
    ensures { result ≡ check_of m }
{
    let mut segs = [[0.0; 8]; 384];
    put_segs(&mut segs, m.outlines, segs_counted(m.parts));
    check_in(m.bodies, m.parts, &segs, m.pairs)
}

// Document 01's list for a call, behind the check c of the description: 11 where the pose does not fit, 12 where something named is not there, 13 where the lent rows have
// no room.
pub fn then_called(
    c: Result<(), Problem>,
    fits: bool,
    known: bool,
    room: bool,
) -> Result<(), Problem>
    ensures { result ≡ then_called c fits known room }
{
    c?;
    if !fits {
        return Err(Problem::PoseNotMatching);
    }
    if !known {
        return Err(Problem::NoSuchThing);
    }
    if !room {
        return Err(Problem::TooFewRows);
    }
    Ok(())
}

// The whole list for a call on a description: 3 to 10, then 11 to 13.
pub fn call_checked(m: Mechanism, fits: bool, known: bool, room: bool) -> Result<(), Problem>
    ensures { result ≡ call_checked m fits known room }
{
    then_called(check(m), fits, known, room)
}

// Whether a side passes no limit, and its ranges are drawn and lie on one body.
#[tactic(auto, unfolding(crate::specs::Check::side_drawn))]
pub fn side_drawn(ps: Parts, u: Surface) -> bool
    ensures { result ≡ side_drawn ps u }
{
    if parts_over(ps) || side_over(u) {
        return false;
    }
    side_body(ps, 0, u).is_ok()
}

// The same of both sides of a pair.
pub fn pair_drawn(ps: Parts, p: ContactPair) -> bool
    ensures { result ≡ pair_drawn ps p }
{
    side_drawn(ps, p.a) && side_drawn(ps, p.b)
}

// The description, put together line by line. The tally of the lines before a line says where it goes.
ghost use Rattle.std.specs.Prelude.{◌≡◌, ◌-◌, ◌<◌, ◌≤◌, get_or};
ghost use Rattle.sheet.specs.Draft.{no_part, no_seg, no_outlines, no_surface, new_pair, no_entries, no_draft};
ghost use Rattle.sheet.specs.Draft.{drawn_part, grown, out_pair, put_body, put_part, put_seg, put_pair, put_entry, put, Room};

use super::Entries;
use super::limits::Tally;
use bodies::pose::Entry;
use bodies::{Body, Joint};
use geometry::{Point, Seg};
use mechanism::pair::{ContactPair, PairGeometry, Surface};
use mechanism::part::{OutlineSeg, Part, Role, SurfaceRef, Sweep};
use text::records::Record;

// The description but for the outlines' segments, which are stored where the lines are read.
#[derive(Clone, Copy)]
pub(crate) struct Draft {
    pub(crate) body: [Body; 15],
    pub(crate) part: [Part; 32],
    pub(crate) pair: [ContactPair; 16],
    pub(crate) margin: f64,
    pub(crate) entries: Entries,
}

// ---- blank values
fn no_part() -> Part
    ensures { result ≡ no_part }
{
    Part {
        body: 0,
        segs: 0,
        sweep: Sweep::Milled { width: 0.0 },
        role: Role::Solid,
    }
}

fn no_seg() -> OutlineSeg
    ensures { result ≡ no_seg }
{
    let o = Point { x: 0.0, y: 0.0 };
    OutlineSeg {
        seg: Seg::Line { a: o, b: o },
    }
}

pub(crate) fn no_outlines() -> [OutlineSeg; 384]
    ensures { result ≡ no_outlines }
{
    [no_seg(); 384]
}

fn no_surface() -> Surface
    ensures { result ≡ no_surface }
{
    let range = [SurfaceRef {
        part: 0,
        start: 0,
        end: 0,
    }; 4];
    Surface { count: 0, range }
}

// A pair without ranges.
fn new_pair(geometry: PairGeometry) -> ContactPair
    ensures { result ≡ new_pair geometry }
{
    ContactPair {
        a: no_surface(),
        b: no_surface(),
        geometry,
    }
}

fn no_entries() -> Entries
    ensures { result ≡ no_entries }
{
    let entry = [Entry {
        value: 0.0,
        sine: 0.0,
        cosine: 0.0,
    }; 16];
    Entries { count: 0, entry }
}

#[tactic(auto, unfolding(crate::specs::Draft::no_draft))]
pub(crate) fn no_draft() -> Draft
    ensures { result ≡ no_draft }
{
    let b = Body {
        parent: 0,
        joint: Joint::Ground,
    };
    Draft {
        body: [b; 15],
        part: [no_part(); 32],
        pair: [new_pair(PairGeometry::Features); 16],
        margin: 0.0,
        entries: no_entries(),
    }
}

// ---- each record
fn put_body(mut d: Draft, n: usize, b: Body) -> Draft
    requires { n < 15 }
    ensures { result ≡ put_body d n b }
{
    d.body[n] = b;
    d
}

fn put_part(mut d: Draft, n: usize, p: Part) -> Draft
    requires { n < 32 }
    ensures { result ≡ put_part d n p }
{
    d.part[n] = p;
    d
}

// The last of n parts gets another number of segments.
fn put_seg(d: Draft, n: usize, segs: usize) -> Draft
    requires { n ≤ 32 }
    ensures { result ≡ put_seg d n segs }
{
    let k = n.saturating_sub(1);
    put_part(d, k, Part { segs, ..d.part[k] })
}

fn put_pair(mut d: Draft, n: usize, p: ContactPair) -> Draft
    requires { n < 16 }
    ensures { result ≡ put_pair d n p }
{
    d.pair[n] = p;
    d
}

// One range more after the first n.
fn grow(mut s: Surface, n: usize, x: SurfaceRef) -> Surface
    requires { n < 4 }
    ensures { result ≡ grown s n x }
{
    s.range[n] = x;
    s.count = n + 1;
    s
}

// The last of n pairs.
fn last_pair(d: Draft, n: usize) -> ContactPair
    requires { n ≤ 16 }
    ensures { result ≡ get_or d.pair (n - 1) out_pair }
{
    d.pair[n.saturating_sub(1)]
}

// The last of n pairs becomes another.
fn put_last_pair(d: Draft, n: usize, p: ContactPair) -> Draft
    requires { n ≤ 16 }
    ensures { result ≡ put_pair d (n - 1) p }
{
    put_pair(d, n.saturating_sub(1), p)
}

fn put_entry(mut d: Draft, e: Entry) -> Draft
    ensures { result ≡ put_entry d e }
{
    let n = d.entries.count;
    if n < 16 {
        d.entries.entry[n] = e;
        d.entries.count = n + 1;
    } else {
        d.entries.count = 17;
    }
    d
}

fn new_part(body: usize, role: Role, sweep: Sweep) -> Part
    ensures { result ≡ drawn_part body role sweep }
{
    Part {
        body,
        segs: 0,
        sweep,
        role,
    }
}

// The record put into the description; t is the tally before it.
#[tactic(auto, unfolding(crate::specs::Draft::put))]
pub(crate) fn put(d: Draft, t: Tally, r: Record) -> Draft
    requires { Room t r }
    ensures { result ≡ put t d r }
{
    match r {
        Record::Coords(_) | Record::Malformed => d,
        Record::Joined(b) => put_body(d, t.bodies, b),
        Record::Drawn { body, role, sweep } => put_part(d, t.parts, new_part(body, role, sweep)),
        Record::Edge(_) => put_seg(d, t.parts, t.drawn + 1),
        Record::Paired(g) => put_pair(d, t.pairs, new_pair(g)),
        Record::OnA(x) => {
            let p = last_pair(d, t.pairs);
            let a = grow(p.a, t.a.ranges, x);
            put_last_pair(d, t.pairs, ContactPair { a, ..p })
        }
        Record::OnB(x) => {
            let p = last_pair(d, t.pairs);
            let b = grow(p.b, t.b.ranges, x);
            put_last_pair(d, t.pairs, ContactPair { b, ..p })
        }
        Record::Margin(margin) => Draft { margin, ..d },
        Record::Turned(e) => put_entry(d, e),
    }
}

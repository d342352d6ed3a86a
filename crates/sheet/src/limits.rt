// The limits of a sheet (document 01, "Size of a sheet"): a tally of the lines so far.
ghost use Rattle.std.specs.Prelude.{◌≡◌, ◌≤◌};
ghost use Rattle.sheet.specs.Limits.{Bounds, Narrow, no_side, no_tally, more_side, counted, side_within, within_limits};

use mechanism::part::SurfaceRef;
use text::records::Record;

// One side of the last pair: its S lines, and the segments of its ranges.
#[derive(Clone, Copy)]
pub(crate) struct Side {
    pub(crate) ranges: usize,
    pub(crate) segs: usize,
}

// The lines so far: the coordinates that M gives, the J, P, K and S lines, the segments of the last part and of all parts.
#[derive(Clone, Copy)]
pub(crate) struct Tally {
    pub(crate) coords: usize,
    pub(crate) bodies: usize,
    pub(crate) parts: usize,
    pub(crate) drawn: usize,
    pub(crate) segs: usize,
    pub(crate) pairs: usize,
    pub(crate) a: Side,
    pub(crate) b: Side,
}

fn no_side() -> Side
    ensures { result ≡ no_side }
{
    Side { ranges: 0, segs: 0 }
}

pub(crate) fn no_tally() -> Tally
    ensures { result ≡ no_tally }
{
    Tally {
        coords: 0,
        bodies: 0,
        parts: 0,
        drawn: 0,
        segs: 0,
        pairs: 0,
        a: no_side(),
        b: no_side(),
    }
}

// A range counts past-last less first, or nothing where that is not above zero.
fn more_side(s: Side, x: SurfaceRef) -> Side
    requires { (s.ranges ≤ 4) × (s.segs ≤ 12) × (x.end ≤ 65535) }
    ensures { result ≡ more_side s x }
{
    Side {
        ranges: s.ranges + 1,
        segs: s.segs + x.end.saturating_sub(x.start),
    }
}

// The tally with one line more.
#[tactic(auto, unfolding(crate::specs::Limits::counted))]
pub(crate) fn count(t: Tally, r: Record) -> Tally
    requires { Bounds t × Narrow r }
    ensures { result ≡ counted t r }
{
    match r {
        Record::Coords(coords) => Tally { coords, ..t },
        Record::Joined(_) => Tally {
            bodies: t.bodies + 1,
            ..t
        },
        Record::Drawn { .. } => Tally {
            parts: t.parts + 1,
            drawn: 0,
            ..t
        },
        Record::Edge(_) => Tally {
            drawn: t.drawn + 1,
            segs: t.segs + 1,
            ..t
        },
        Record::Paired(_) => Tally {
            pairs: t.pairs + 1,
            a: no_side(),
            b: no_side(),
            ..t
        },
        Record::OnA(x) => Tally {
            a: more_side(t.a, x),
            ..t
        },
        Record::OnB(x) => Tally {
            b: more_side(t.b, x),
            ..t
        },
        Record::Margin(_) | Record::Turned(_) | Record::Malformed => t,
    }
}

fn side_within(s: Side) -> bool
    ensures { result ≡ side_within s }
{
    (s.ranges <= 4) & (s.segs <= 12)
}

// No limit is passed.
#[tactic(auto, unfolding(crate::specs::Limits::within_limits))]
pub(crate) fn within(t: Tally) -> bool
    ensures { result ≡ within_limits t }
{
    let parts = (t.parts <= 32) & ((t.drawn <= 48) & (t.segs <= 384));
    let pairs = (t.pairs <= 16) & (side_within(t.a) & side_within(t.b));
    (t.coords <= 16) & ((t.bodies <= 15) & (parts & pairs))
}

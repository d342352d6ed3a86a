// The order of lines.
ghost use Rattle.std.specs.Prelude.{◌≡◌};
ghost use Rattle.sheet.specs.Grammar.{may, place_of, follows, no_line, after, may_end};

use text::records::Record;

// The stages of a text, by its last line: none yet; M or J; P, L or A; K or S,A; S,B; G or T.
const START: u8 = 0;

const BODIES: u8 = 1;

const PARTS: u8 = 2;

const SIDE_A: u8 = 3;

const SIDE_B: u8 = 4;

const POSE: u8 = 5;

// How far a text has come: the stage of its last line, and whether M was read.
#[derive(Clone, Copy)]
pub(crate) struct Standing {
    stage: u8,
    headed: bool,
}

pub(crate) fn no_line() -> Standing
    ensures { result ≡ no_line }
{
    Standing {
        stage: START,
        headed: false,
    }
}

// Where a record may stand: after the stages from low to high; and the stage that it leads to.
#[derive(Clone, Copy)]
pub(crate) struct Place {
    low: u8,
    high: u8,
    next: u8,
}

fn may(low: u8, high: u8, next: u8) -> Place
    ensures { result ≡ may low high next }
{
    Place { low, high, next }
}

fn place_of(r: Record) -> Place
    ensures { result ≡ place_of r }
{
    match r {
        Record::Coords(_) => may(START, START, BODIES),
        Record::Joined(_) => may(START, BODIES, BODIES),
        Record::Drawn { .. } => may(START, PARTS, PARTS),
        Record::Edge(_) => may(PARTS, PARTS, PARTS),
        Record::Paired(_) => may(START, SIDE_B, SIDE_A),
        Record::OnA(_) => may(SIDE_A, SIDE_A, SIDE_A),
        Record::OnB(_) => may(SIDE_A, SIDE_B, SIDE_B),
        Record::Margin(_) => may(START, SIDE_B, POSE),
        Record::Turned(_) => may(POSE, POSE, POSE),
        // After none.
        Record::Malformed => may(BODIES, START, START),
    }
}

pub(crate) fn may_follow(s: Standing, r: Record) -> bool
    ensures { result ≡ follows s r }
{
    let p = place_of(r);
    (p.low <= s.stage) & (s.stage <= p.high)
}

// The standing with one line more.
pub(crate) fn after(s: Standing, r: Record) -> Standing
    ensures { result ≡ after s r }
{
    Standing {
        stage: place_of(r).next,
        headed: s.headed | matches!(r, Record::Coords(_)),
    }
}

// A text may end after a newline, once M and G were read; `left` is how many bytes stand after the last newline.
pub(crate) fn may_end(left: usize, s: Standing) -> bool
    ensures { result ≡ may_end left s }
{
    (left == 0) & (s.headed & (s.stage == POSE))
}

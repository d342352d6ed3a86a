// The record that a line is: the table of the sixteen forms.
ghost use Rattle.std.specs.Prelude.{◌≡◌, ◌<◌};
ghost use Rattle.text.specs.Pieces.{fields_of};
ghost use Rattle.text.specs.Records.{point_at, dir_at, range_at, role_of, body_of, part_of, ends, sides, pairs, outlines, parts, joints, first_fit, record_of};

use super::fields::{fits, letter_at, number_at, real_at};
use bodies::pose::Entry;
use bodies::{Body, Joint};
use geometry::{Dir, Point, Seg};
use mechanism::pair::PairGeometry;
use mechanism::part::{Role, SurfaceRef, Sweep};

#[derive(Clone, Copy)]
pub enum Record {
    // M
    Coords(usize),
    // J
    Joined(Body),
    // P
    Drawn {
        body: usize,
        role: Role,
        sweep: Sweep,
    },
    // L or A
    Edge(Seg),
    // K
    Paired(PairGeometry),
    // S,A
    OnA(SurfaceRef),
    // S,B
    OnB(SurfaceRef),
    // G
    Margin(f64),
    // T
    Turned(Entry),
    // A line that fits no form.
    Malformed,
}

// The point, and the direction, whose two floats start at the field j.
fn point_at(line: &[u8], j: usize) -> Point
    requires { j < 16 }
    ensures { result ≡ point_at (fields_of line.now) j }
{
    Point {
        x: real_at(line, j),
        y: real_at(line, j + 1),
    }
}

fn dir_at(line: &[u8], j: usize) -> Dir
    requires { j < 16 }
    ensures { result ≡ dir_at (fields_of line.now) j }
{
    let x = real_at(line, j);
    let y = real_at(line, j + 1);
    Dir::new(x, y).unwrap_or(Dir { x, y })
}

// The range of an S line.
fn range_at(line: &[u8]) -> SurfaceRef
    ensures { result ≡ range_at (fields_of line.now) }
{
    SurfaceRef {
        part: number_at(line, 2),
        start: number_at(line, 3),
        end: number_at(line, 4),
    }
}

fn role_of(b: u8) -> Role
    ensures { result ≡ role_of b }
{
    match b {
        b'S' => Role::Solid,
        b'C' => Role::Cut,
        _ => Role::Lining,
    }
}

// The forms of G and T.
#[tactic(auto, unfolding(crate::specs::Records::first_fit))]
fn end_record(line: &[u8]) -> Record
    ensures { result ≡ first_fit ends (fields_of line.now) }
{
    if fits(line, b"Gf") {
        return Record::Margin(real_at(line, 1));
    }
    if fits(line, b"Tfff") {
        return Record::Turned(Entry {
            value: real_at(line, 1),
            sine: real_at(line, 2),
            cosine: real_at(line, 3),
        });
    }
    Record::Malformed
}

// The forms of S, then those after it.
#[tactic(auto, unfolding(crate::specs::Records::first_fit))]
fn side_record(line: &[u8]) -> Record
    ensures { result ≡ first_fit sides (fields_of line.now) }
{
    if fits(line, b"SAnnn") {
        return Record::OnA(range_at(line));
    }
    if fits(line, b"SBnnn") {
        return Record::OnB(range_at(line));
    }
    end_record(line)
}

// The forms of K, then those after it.
#[tactic(auto, unfolding(crate::specs::Records::first_fit))]
fn pair_record(line: &[u8]) -> Record
    ensures { result ≡ first_fit pairs (fields_of line.now) }
{
    if fits(line, b"KF") {
        return Record::Paired(PairGeometry::Features);
    }
    if fits(line, b"KC") {
        return Record::Paired(PairGeometry::CenterBearing);
    }
    side_record(line)
}

// The forms of L and A, then those after them.
#[tactic(auto, unfolding(crate::specs::Records::first_fit))]
fn outline_record(line: &[u8]) -> Record
    ensures { result ≡ first_fit outlines (fields_of line.now) }
{
    if fits(line, b"Lffff") {
        return Record::Edge(Seg::Line {
            a: point_at(line, 1),
            b: point_at(line, 3),
        });
    }
    if fits(line, b"Afffffff") {
        return Record::Edge(Seg::Arc {
            c: point_at(line, 1),
            r: real_at(line, 3),
            from: dir_at(line, 4),
            to: dir_at(line, 6),
        });
    }
    pair_record(line)
}

// The part of a P line.
fn part_of(line: &[u8], sweep: Sweep) -> Record
    ensures { result ≡ part_of (fields_of line.now) sweep }
{
    Record::Drawn {
        body: number_at(line, 1),
        role: role_of(letter_at(line, 2)),
        sweep,
    }
}

// The forms of P, then those after it.
#[tactic(auto, unfolding(crate::specs::Records::first_fit))]
fn part_record(line: &[u8]) -> Record
    ensures { result ≡ first_fit parts (fields_of line.now) }
{
    if fits(line, b"PnrEff") {
        let sweep = Sweep::Extruded {
            width: real_at(line, 4),
            across: real_at(line, 5),
        };
        return part_of(line, sweep);
    }
    if fits(line, b"PnrRf") {
        let sweep = Sweep::Revolved {
            axis: real_at(line, 4),
        };
        return part_of(line, sweep);
    }
    if fits(line, b"PnrMf") {
        let sweep = Sweep::Milled {
            width: real_at(line, 4),
        };
        return part_of(line, sweep);
    }
    if fits(line, b"PnrOf") {
        let sweep = Sweep::Oval {
            width: real_at(line, 4),
        };
        return part_of(line, sweep);
    }
    outline_record(line)
}

// The body of a J line.
fn body_of(line: &[u8], joint: Joint) -> Record
    ensures { result ≡ body_of (fields_of line.now) joint }
{
    Record::Joined(Body {
        parent: number_at(line, 2),
        joint,
    })
}

// The forms of J, then those after it.
#[tactic(auto, unfolding(crate::specs::Records::first_fit))]
fn joint_record(line: &[u8]) -> Record
    ensures { result ≡ first_fit joints (fields_of line.now) }
{
    if fits(line, b"JGn") {
        let joint = Joint::Ground;
        return body_of(line, joint);
    }
    if fits(line, b"JRnnff") {
        let joint = Joint::Revolute {
            pivot: point_at(line, 4),
            coord: number_at(line, 3),
        };
        return body_of(line, joint);
    }
    if fits(line, b"JPnnffff") {
        let joint = Joint::Prismatic {
            origin: point_at(line, 4),
            axis: dir_at(line, 6),
            coord: number_at(line, 3),
        };
        return body_of(line, joint);
    }
    part_record(line)
}

// The record that a line is: the first form that it fits says.
#[tactic(auto, unfolding(crate::specs::Records::first_fit))]
pub fn record_of(line: &[u8]) -> Record
    ensures { result ≡ record_of (fields_of line.now) }
{
    if fits(line, b"Mn") {
        return Record::Coords(number_at(line, 1));
    }
    joint_record(line)
}

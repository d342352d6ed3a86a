// Calls with values that no text gives, and what document 01's list refuses of them: X, the number and the place, or `accepted`.
// The text on standard input has sixteen coordinates and one slide. First the pose of its description for 16, 15, 17 and 1,000 entries that are counted;
// then, for the slide's axis as it was read, (0,0), (NaN,0) and (0,0) on a body that is its own parent, the calls that take bodies, with 16 entries and with 15:
// `Bodies::pose`, `read_in`, `rows_in` and the prepared `pair_overlap`. The answers stored beside this program were written from document 01.
#![tactic(auto)]

use bodies::pose::{Lent, Placement, Pose};
use bodies::{Bodies, Body, Joint, Problem};
use geometry::{Dir, Point};
use mechanism::rows::RowArrays;
use overlap::prepared::pair_overlap;
use prepared_rows::rows_in;
use reading::Reading;
use reading::prepared::read_in;
use sheet::posed::{LentEntries, lent, posed};
use sheet::{Entries, Sheet};
use std::io;
use std::io::{BufWriter, Write};
use strips::tables::Tables;
use strips::{ChoiceRow, DiscRow, FaceRow, PartRow, PieceRow, PointRow, SideRow};

fn print_outcome<W: Write, T: Drop>(out: &mut W, a: Result<T, Problem>) -> io::Result<()> {
    match a {
        Ok(_) => writeln!(out, "accepted"),
        Err(p) => writeln!(out, "{p}"),
    }
}

// The bodies, of which the first is a slide along (x, y).
fn with_slide(b: Bodies, parent: usize, x: f64, y: f64) -> Bodies {
    let slide = Body {
        parent,
        joint: Joint::Prismatic {
            origin: Point { x: 0.0, y: 0.0 },
            axis: Dir { x, y },
            coord: 0,
        },
    };
    Bodies {
        coords: b.coords,
        count: b.count,
        body: [slide; 15],
    }
}

// Tables of one row each.
#[derive(Drop)]
struct OneRow {
    numbers: [PieceRow; 1],
    points: [PointRow; 1],
    faces: [FaceRow; 1],
    discs: [DiscRow; 1],
    sides: [SideRow; 1],
    choices: [ChoiceRow; 1],
    parts: [PartRow; 1],
}

impl OneRow {
    fn blank() -> OneRow {
        OneRow {
            numbers: [[0; 3]; 1],
            points: [[0.0; 2]; 1],
            faces: [[0.0; 6]; 1],
            discs: [[0.0; 7]; 1],
            sides: [[0; 7]; 1],
            choices: [[0; 32]; 1],
            parts: [[0; 5]; 1],
        }
    }

    fn lent(&self) -> Tables<'_> {
        Tables {
            faces: &self.faces,
            fnames: &self.numbers,
            discs: &self.discs,
            dnames: &self.numbers,
            sides: &self.sides,
            centers: &self.points,
            choices: &self.choices,
            drawn: &self.points,
            sampled: &self.points,
            parts: &self.parts,
        }
    }
}

// A reading of bodies without pairs.
fn read_of(b: Bodies, q: &[Lent]) -> Result<Reading, Problem> {
    let t = OneRow::blank();
    let mut rows = RowArrays::<1, 1>::blank();
    read_in(b, &t.lent(), 0, q, 1.0, &mut rows.lent())
}

// The rows of bodies without pairs.
fn rows_of(b: Bodies, q: Pose) -> Result<usize, Problem> {
    let t = OneRow::blank();
    let mut rows = RowArrays::<1, 1>::blank();
    rows_in(b, &t.lent(), 0, q, 1.0, &mut rows.lent())
}

// The overlap of pair 0 of one.
fn overlap_of(b: Bodies, q: Pose) -> Result<f64, Problem> {
    let t = OneRow::blank();
    pair_overlap(b, &t.lent(), 1, q, 0)
}

// All calls that take bodies, the pose that was placed before among what they are given.
fn print_calls<W: Write>(out: &mut W, b: Bodies, q: &[Lent], placed: Pose) -> io::Result<()> {
    print_outcome(out, b.pose(q))?;
    print_outcome(out, read_of(b, q))?;
    print_outcome(out, rows_of(b, placed))?;
    print_outcome(out, overlap_of(b, placed))
}

// The same with all sixteen entries, and with fifteen and a pose of no bodies.
fn print_both<W: Write>(out: &mut W, b: Bodies, q: LentEntries, placed: Pose) -> io::Result<()> {
    let mut unplaced = placed;
    unplaced.count = 0;
    print_calls(out, b, &q, placed)?;
    print_calls(out, b, &q[..15], unplaced)
}

// With the pose for so many of the entries, and with what the bodies are made into.
fn answer<W: Write>(out: &mut W, s: Sheet, placed: Pose) -> io::Result<()> {
    let entry = s.entries.entry;
    for count in [16, 15, 17, 1000] {
        print_outcome(out, posed(s.mechanism, Entries { count, entry }))?;
    }
    let b = s.mechanism.bodies;
    let q = lent(s.entries);
    print_both(out, b, q, placed)?;
    print_both(out, with_slide(b, 0, 0.0, 0.0), q, placed)?;
    print_both(out, with_slide(b, 0, 0.0 / 0.0, 0.0), q, placed)?;
    print_both(out, with_slide(b, 1, 0.0, 0.0), q, placed)
}

// The smallest text, of no bodies: what is asked about where another is refused.
const NOTHING: &[u8] = b"M,0\nG,0000000000000000\n";

// What a text says, or the smallest one, and the pose of its bodies for all sixteen entries; of no bodies where these are refused.
fn placed(text: &[u8]) -> Result<(Sheet, Pose), Problem> {
    let s = match sheet::read(text) {
        Ok(s) => s,
        Err(_) => sheet::read(NOTHING)?,
    };
    let none = Pose {
        count: 0,
        placement: [Placement::WORLD; 16],
    };
    Ok((s, s.mechanism.bodies.pose(&lent(s.entries)).unwrap_or(none)))
}

fn main(rt: HostRuntime) -> io::Result<()> {
    let mut buf = [0u8; 4096];
    let n = streams::read_full(&mut rt.stdin(), &mut buf)?;
    let mut out = BufWriter::new(rt.alloc(), rt.stdout())?;
    match placed(&buf[..n]) {
        Ok((s, q)) => answer(&mut out, s, q)?,
        Err(p) => writeln!(out, "{p}")?,
    }
    out.flush()
}

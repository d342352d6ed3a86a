// Prints the readings of sheet texts by the prepared call, each as a number: X,number,place where a text is refused (document 01's 1 to 11 and 13, with 256
// rows lent), else `accepted`, how many rows there are, and a number that all of the reading goes into: every row with its pieces, gap, normal and point, all
// gradients, all slips, of each pair the overlaps and the bearing. Each pair's overlap is also asked for by itself, and stands as -1 where the two differ.
// Before each description the same arrays are prepared for the accepted one before it that has the most segments. The texts come from standard input, each
// behind its length in six decimal digits and a newline. The files stdin and stdout beside this program were made by `oracle/readings store`: the answers are
// the Rust's.
#![tactic(auto)]

use bodies::Problem;
use bodies::pose::{Lent, Pose};
use ieee::num::plain_zero;
use mechanism::Mechanism;
use mechanism::bearing::{Bearing, HowItBears};
use mechanism::check::segs_counted;
use mechanism::rows::{LentRows, RowArrays};
use overlap::prepared::pair_overlap;
use reading::prepared::read_in;
use reading::{PairReading, Reading};
use sheet::Sheet;
use std::io;
use std::io::{BufWriter, Write};
use tables::Arrays;

// ---- one number for many

// The number h with x gone into it.
fn mixed(h: u64, x: u64) -> u64 {
    (h % 4294967291 * 1000003 + x % 4294967296 + x / 4294967296 * 31) % 4294967291
}

fn with_float(h: u64, x: f64) -> u64 {
    mixed(h, ieee::bits::pattern(x))
}

// With the first n rows.
fn with_rows(h: u64, rows: &Rows, n: usize) -> u64 {
    let mut d = h;
    for (place, value) in rows.places.iter().zip(&rows.values).take(n) {
        d = place.iter().fold(d, |d, k| mixed(d, *k as u64));
        d = value.iter().fold(d, |d, x| with_float(d, *x));
    }
    d
}

// With the first n entries.
fn with_entries(h: u64, entries: &[f64], n: usize) -> u64 {
    entries.iter().take(n).fold(h, |d, x| with_float(d, *x))
}

fn how(h: HowItBears) -> u64 {
    match h {
        HowItBears::Flat => 1,
        HowItBears::StopEdge => 2,
        HowItBears::KeyCorner => 3,
    }
}

fn with_slope(h: u64, s: Option<f64>) -> u64 {
    match s {
        Some(x) => with_float(mixed(h, 1), x),
        None => mixed(h, 0),
    }
}

fn with_bearing(h: u64, b: Option<Bearing>) -> u64 {
    match b {
        Some(b) => {
            let d = with_float(mixed(h, how(b.how)), b.gap);
            with_slope(with_float(with_float(d, b.point.x), b.point.y), b.slope)
        }
        None => mixed(h, 0),
    }
}

fn with_pair(h: u64, p: PairReading) -> u64 {
    let d = with_float(h, p.overlap);
    // Of `face_overlap` both zeros are alike.
    with_bearing(with_float(d, plain_zero(p.face_overlap)), p.bearing)
}

fn with_pairs(h: u64, r: Reading) -> u64 {
    r.pair.iter().take(r.pairs).fold(h, |d, p| with_pair(d, *p))
}

// ---- a reading

// What is lent for rows.
type Rows = RowArrays<256, 4096>;

// The overlap of a pair of the prepared description.
fn overlap_at(t: &Arrays, m: Mechanism, q: Pose, pair: usize) -> Result<f64, Problem> {
    pair_overlap(m.bodies, &t.lent(m.parts.count), m.pairs.count, q, pair)
}

// A number that was read twice; -1 where the second answer is not that number.
fn agreed(x: f64, a: Result<f64, Problem>) -> f64 {
    match a {
        Ok(y) if ieee::bits::pattern(x) == ieee::bits::pattern(y) => x,
        _ => -1.0,
    }
}

// The reading, its overlaps held to those that `pair_overlap` gives.
fn asked(r: Reading, t: &Arrays, m: Mechanism, q: Pose) -> Reading {
    let mut held = r;
    for i in 0..r.pairs.min(16) {
        held.pair[i].overlap = agreed(r.pair[i].overlap, overlap_at(t, m, q, i));
    }
    held
}

fn print_accepted<W: Write>(out: &mut W, r: Reading, rows: &Rows, coords: usize) -> io::Result<()> {
    let n = r.count.saturating_mul(coords);
    let d = with_rows(0, rows, r.count);
    let d = with_entries(with_entries(d, &rows.grad, n), &rows.slip, n);
    writeln!(out, "accepted,{},{}", r.count, with_pairs(d, r))
}

// The larger of two descriptions: of as many segments the second.
fn larger(largest: Option<Mechanism>, m: Mechanism) -> Mechanism {
    match largest {
        Some(l) if segs_counted(m.parts) < segs_counted(l.parts) => l,
        _ => m,
    }
}

// Prepares a text's description in arrays that were prepared for the largest one before it, which is then noted, and reads it into the rows.
fn read_sheet(
    largest: &mut Option<Mechanism>,
    s: Sheet,
    rows: &mut Rows,
) -> Result<Reading, Problem> {
    let m = s.mechanism;
    let mut t = Arrays::blank();
    t.prepare(largest.unwrap_or(m))?;
    t.prepare(m)?;
    *largest = Some(larger(*largest, m));
    let entries = sheet::posed::lent(s.entries);
    let q = &entries[..s.entries.count.min(16)];
    let pose = m.bodies.pose(q)?;
    let mut lent = LentRows {
        places: &mut rows.places,
        values: &mut rows.values,
        grad: &mut rows.grad,
        slip: &mut rows.slip,
    };
    let r = read_in(
        m.bodies,
        &t.lent(m.parts.count),
        m.pairs.count,
        q,
        s.margin,
        &mut lent,
    )?;
    Ok(asked(r, &t, m, pose))
}

// The arrays are made in a call of their own, so that a refused text does not pay for them.
fn print_sheet<W: Write>(out: &mut W, largest: &mut Option<Mechanism>, s: Sheet) -> io::Result<()> {
    let mut rows = Rows::blank();
    match read_sheet(largest, s, &mut rows) {
        Ok(r) => print_accepted(out, r, &rows, s.mechanism.bodies.coords),
        Err(p) => writeln!(out, "{p}"),
    }
}

fn answer<W: Write>(out: &mut W, largest: &mut Option<Mechanism>, text: &[u8]) -> io::Result<()> {
    match sheet::read(text) {
        Ok(s) => print_sheet(out, largest, s),
        Err(p) => writeln!(out, "{p}"),
    }
}

fn main(rt: HostRuntime) -> io::Result<()> {
    let mut input = rt.stdin();
    let mut out = BufWriter::new(rt.alloc(), rt.stdout())?;
    let mut largest = None;
    for _ in 0..1000000 {
        let mut buf = [0u8; 65537];
        let Some(n) = streams::next_text(&mut input, &mut buf)? else {
            break;
        };
        if let Some(text) = buf.get(..n) {
            answer(&mut out, &mut largest, text)?;
        }
    }
    out.flush()
}

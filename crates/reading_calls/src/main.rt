// Prints the readings of sheet texts from standard input, each behind its length in six decimal digits and a newline: X,number,place where one is refused
// (document 01's 1 to 11 and 13, with 256 rows lent), else `accepted` and the number of rows; each row with the points of both surfaces, its gradient and its slip;
// of each pair the overlaps and the bearing; then the governing row, its gap and the bearing of each pair and of one that is not there, by the rows that were read,
// by the same in the opposite order, and by those with a NaN for the first gap. The files stdin and stdout beside this program were made by `oracle/readings store`:
// the answers are the Rust's.
#![tactic(auto)]

use bodies::Problem;
use bodies::pose::Pose;
use geometry::Point;
use governing::RowEntries;
use ieee::num::plain_zero;
use mechanism::Mechanism;
use mechanism::bearing::{Bearing, HowItBears};
use mechanism::rows::{LentRows, Place, ReadRows, Row, RowArrays, Value};
use reading::{PairReading, Reading};
use std::io;
use std::io::{BufWriter, Write};

fn float<W: Write>(out: &mut W, x: f64) -> io::Result<()> {
    write!(out, "{:016x},", ieee::bits::pattern(x))
}

fn float_if_any<W: Write>(out: &mut W, x: Option<f64>) -> io::Result<()> {
    match x {
        Some(x) => float(out, x),
        None => write!(out, "N,"),
    }
}

fn point<W: Write>(out: &mut W, p: Point) -> io::Result<()> {
    float(out, p.x)?;
    float(out, p.y)
}

fn print_how<W: Write>(out: &mut W, h: HowItBears) -> io::Result<()> {
    match h {
        HowItBears::Flat => write!(out, "F,"),
        HowItBears::StopEdge => write!(out, "E,"),
        HowItBears::KeyCorner => write!(out, "C,"),
    }
}

fn print_bearing<W: Write>(out: &mut W, b: Option<Bearing>) -> io::Result<()> {
    match b {
        Some(b) => {
            print_how(out, b.how)?;
            float(out, b.gap)?;
            point(out, b.point)?;
            float_if_any(out, b.slope)
        }
        None => write!(out, "N,"),
    }
}

fn print_row<W: Write>(out: &mut W, place: Place, value: Value) -> io::Result<()> {
    for n in &place {
        write!(out, "{n},")?;
    }
    let r = Row::from((place, value));
    float(out, r.gap)?;
    point(out, r.normal.vector())?;
    point(out, r.point)?;
    point(out, r.on_a())?;
    point(out, r.on_b())
}

// Up to sixteen numbers, or the refusal.
fn print_entries<W: Write>(out: &mut W, a: Result<RowEntries, Problem>) -> io::Result<()> {
    match a {
        Ok(e) => {
            for x in e.entry.iter().take(e.count) {
                float(out, *x)?;
            }
            Ok(())
        }
        Err(p) => write!(out, "{p}"),
    }
}

// What was read of the rows, of which there are n.
#[derive(Drop)]
struct Rows {
    n: usize,
    arrays: RowArrays<256, 4096>,
}

fn print_columns<W: Write>(out: &mut W, r: &Rows, coords: usize, i: usize) -> io::Result<()> {
    print_entries(out, governing::row_entries(&r.arrays.grad, coords, r.n, i))?;
    print_entries(out, governing::row_entries(&r.arrays.slip, coords, r.n, i))?;
    writeln!(out)
}

fn print_rows<W: Write>(out: &mut W, r: &Rows, coords: usize) -> io::Result<()> {
    for i in 0..r.n.min(256) {
        print_row(out, r.arrays.places[i], r.arrays.values[i])?;
        print_columns(out, r, coords, i)?;
    }
    write!(out, "past,")?;
    print_columns(out, r, coords, r.n)
}

fn print_pair<W: Write>(out: &mut W, p: PairReading) -> io::Result<()> {
    float(out, p.overlap)?;
    // Of `face_overlap` both zeros are alike.
    float(out, plain_zero(p.face_overlap))?;
    print_bearing(out, p.bearing)?;
    writeln!(out)
}

fn print_governed<W: Write>(
    out: &mut W,
    m: Mechanism,
    q: Pose,
    r: &Rows,
    pair: usize,
) -> io::Result<()> {
    let rows = ReadRows {
        places: &r.arrays.places,
        values: &r.arrays.values,
        count: r.n,
    };
    match governing::governing_in(&rows, pair) {
        Some(i) => write!(out, "{i},")?,
        None => write!(out, "N,")?,
    }
    float_if_any(out, governing::gap_in(&rows, pair))?;
    match row_records::bearing_in(m, q, &rows, pair) {
        Ok(b) => print_bearing(out, b),
        Err(p) => write!(out, "{p}"),
    }
}

// The governing row, its gap and the bearing of each pair, and of the number behind the last.
fn print_all_governed<W: Write>(out: &mut W, m: Mechanism, q: Pose, r: &Rows) -> io::Result<()> {
    for pair in 0..m.pairs.count.min(16) + 1 {
        print_governed(out, m, q, r, pair)?;
    }
    writeln!(out)
}

// The first n rows in the opposite order.
fn turn_round(r: &mut Rows) {
    let n = r.n.min(256);
    r.arrays.places[..n].reverse();
    r.arrays.values[..n].reverse();
}

// A description at a pose, and what was read of it.
#[derive(Drop)]
struct Whole {
    mechanism: Mechanism,
    pose: Pose,
    reading: Reading,
    rows: Rows,
}

fn print_reading<W: Write>(out: &mut W, w: Whole) -> io::Result<()> {
    let m = w.mechanism;
    let mut rows = w.rows;
    writeln!(out, "accepted,{},", rows.n)?;
    print_rows(out, &rows, m.bodies.coords)?;
    for p in w.reading.pair.iter().take(w.reading.pairs) {
        print_pair(out, *p)?;
    }
    print_all_governed(out, m, w.pose, &rows)?;
    turn_round(&mut rows);
    print_all_governed(out, m, w.pose, &rows)?;
    rows.arrays.values[0][0] = 0.0 / 0.0;
    print_all_governed(out, m, w.pose, &rows)
}

// The reading of what a text says, at the pose that it gives.
fn read_text(text: &[u8]) -> Result<Whole, Problem> {
    let s = sheet::read(text)?;
    let m = s.mechanism;
    let q = sheet::posed::posed(m, s.entries)?;
    let mut arrays = RowArrays::<256, 4096>::blank();
    let mut rows = LentRows {
        places: &mut arrays.places,
        values: &mut arrays.values,
        grad: &mut arrays.grad,
        slip: &mut arrays.slip,
    };
    let r = reading::read(m, q, s.margin, &mut rows)?;
    Ok(Whole {
        mechanism: m,
        pose: q,
        reading: r,
        rows: Rows { n: r.count, arrays },
    })
}

fn answer<W: Write>(out: &mut W, text: &[u8]) -> io::Result<()> {
    match read_text(text) {
        Ok(w) => print_reading(out, w),
        Err(p) => writeln!(out, "{p}"),
    }
}

fn main(rt: HostRuntime) -> io::Result<()> {
    let mut input = rt.stdin();
    let mut out = BufWriter::new(rt.alloc(), rt.stdout())?;
    for _ in 0..1000000 {
        let mut buf = [0u8; 65537];
        let Some(n) = streams::next_text(&mut input, &mut buf)? else {
            break;
        };
        if let Some(text) = buf.get(..n) {
            answer(&mut out, text)?;
        }
    }
    out.flush()
}

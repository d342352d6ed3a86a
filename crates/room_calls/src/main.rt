// Prints how much room `rows_in_numbers` asks for, of sheet texts from standard input, each behind its length in six decimal digits and a newline:
// X,number,place where a text is refused (document 01's 1 to 11 and 13, with 256 rows lent), else `accepted` and the fewest places, values, gradients and
// slips, each with plenty of the others, that are accepted, then `kept`, or `written` where a refused call wrote something or an accepted one something past
// its last row, or where the same call over records does not answer and leave the same. The files stdin and stdout beside this program were made by
// `oracle/readings store`: the numbers are the Rust's faces and discs.
#![tactic(auto)]

use bodies::Problem;
use bodies::pose::Pose;
use mechanism::Mechanism;
use mechanism::features::{letter, part, seg};
use mechanism::rows::{LentRows, Place, Row, RowArrays, Value};
use sheet::Sheet;
use shown_rows::rows_in_numbers;
use std::io;
use std::io::{BufWriter, Write};

// What stands in the lent arrays before a call.
const PLACE: Place = [7, 1, 7, 7, 1, 7, 7];

const VALUE: Value = [0.5; 5];

// What is lent.
type Arrays = RowArrays<257, 4112>;

// Whether everything behind the first n rows still stands, and behind their k entries.
fn is_kept(lent: &Arrays, n: usize, k: usize) -> bool {
    let places = lent.places.iter().skip(n).all(|p| *p == PLACE);
    let values = lent.values.iter().skip(n).all(|v| *v == VALUE);
    let grad = lent.grad.iter().skip(k).all(|x| *x == 0.5);
    let slip = lent.slip.iter().skip(k).all(|x| *x == 0.5);
    places & values & grad & slip
}

// How many of each are lent.
#[derive(Clone, Copy)]
struct Room {
    places: usize,
    values: usize,
    grads: usize,
    slips: usize,
}

// Whether a call was accepted, and whether everything stayed but what its rows take.
#[derive(Clone, Copy)]
struct Outcome {
    accepted: bool,
    kept: bool,
}

fn is_number(x: f64, y: f64) -> bool {
    (x == y) | ((x != x) & (y != y))
}

// Whether a record is the row of these numbers.
fn is_row(r: Row, p: Place, v: Value) -> bool {
    let a = r.feature.a;
    let b = r.feature.b;
    let place = [
        r.pair,
        letter(a),
        part(a),
        seg(a),
        letter(b),
        part(b),
        seg(b),
    ];
    let value = [r.gap, r.normal.x, r.normal.y, r.point.x, r.point.y];
    (place == p) & value.iter().zip(&v).all(|(x, y)| is_number(*x, *y))
}

fn are_entries(a: &[f64], b: &[f64]) -> bool {
    a.iter().zip(b).all(|(x, y)| is_number(*x, *y))
}

// Calls `record_rows::rows` with records that hold a pattern, and looks whether everything is as the call over numbers left it, the records past the last row too.
fn is_same(
    m: Mechanism,
    q: Pose,
    margin: f64,
    room: Room,
    answer: Result<usize, Problem>,
    lent: &Arrays,
) -> bool {
    let mut row = [Row::from((PLACE, VALUE)); 257];
    let mut grad = [0.5; 4112];
    let mut slip = [0.5; 4112];
    let again = record_rows::rows(
        m,
        q,
        margin,
        &mut row[..room.places.min(room.values).min(257)],
        &mut grad[..room.grads.min(4112)],
        &mut slip[..room.slips.min(4112)],
    );
    let numbers = lent.places.iter().zip(&lent.values);
    let rows = row
        .iter()
        .zip(numbers)
        .all(|(r, (p, v))| is_row(*r, *p, *v));
    let entries = are_entries(&grad, &lent.grad) & are_entries(&slip, &lent.slip);
    (again.ok() == answer.ok()) & rows & entries
}

// Calls `rows_in_numbers` with so much of arrays that hold a pattern, and looks where that is left.
fn tried(m: Mechanism, q: Pose, margin: f64, room: Room) -> Outcome {
    let mut lent = Arrays {
        places: [PLACE; 257],
        values: [VALUE; 257],
        grad: [0.5; 4112],
        slip: [0.5; 4112],
    };
    let mut rows = LentRows {
        places: &mut lent.places[..room.places.min(257)],
        values: &mut lent.values[..room.values.min(257)],
        grad: &mut lent.grad[..room.grads.min(4112)],
        slip: &mut lent.slip[..room.slips.min(4112)],
    };
    let answer = rows_in_numbers(m, q, margin, &mut rows);
    let n = answer.unwrap_or(0);
    let kept = is_kept(&lent, n, n.saturating_mul(m.bodies.coords));
    Outcome {
        accepted: answer.is_ok(),
        kept: kept & is_same(m, q, margin, room, answer, &lent),
    }
}

// Room for n of what is asked for, 0 places, 1 values, 2 gradients, 3 slips, and plenty of the others.
fn room_for(what: usize, n: usize) -> Room {
    Room {
        places: if what == 0 { n } else { 256 },
        values: if what == 1 { n } else { 256 },
        grads: if what == 2 { n } else { 4096 },
        slips: if what == 3 { n } else { 4096 },
    }
}

// The fewest that are accepted, and whether no call wrote where it should not.
fn fewest(m: Mechanism, q: Pose, margin: f64, what: usize) -> (usize, bool) {
    let mut low = 0;
    let mut high = 4096;
    let mut kept = true;
    while low < high {
        let middle = (low + high) / 2;
        let t = tried(m, q, margin, room_for(what, middle));
        kept &= t.kept;
        if t.accepted {
            high = middle;
        } else {
            low = middle + 1;
        }
    }
    (high, kept)
}

fn print_room<W: Write>(out: &mut W, m: Mechanism, q: Pose, margin: f64) -> io::Result<()> {
    write!(out, "accepted,")?;
    let mut all_kept = true;
    for what in 0..4 {
        let (number, kept) = fewest(m, q, margin, what);
        write!(out, "{number},")?;
        all_kept &= kept;
    }
    writeln!(out, "{}", if all_kept { "kept" } else { "written" })
}

// What a text says, and the pose that it gives; refused where 256 rows are too few.
fn posed(text: &[u8]) -> Result<(Sheet, Pose), Problem> {
    let s = sheet::read(text)?;
    let q = sheet::posed::posed(s.mechanism, s.entries)?;
    let t = tried(s.mechanism, q, s.margin, room_for(4, 0));
    if t.accepted {
        Ok((s, q))
    } else {
        Err(Problem::TooFewRows)
    }
}

fn answer<W: Write>(out: &mut W, text: &[u8]) -> io::Result<()> {
    match posed(text) {
        Ok((s, q)) => print_room(out, s.mechanism, q, s.margin),
        Err(p) => writeln!(out, "{p}"),
    }
}

fn main(rt: HostRuntime) -> io::Result<()> {
    let mut input = rt.stdin();
    let mut out = BufWriter::new(rt.alloc(), rt.stdout())?;
    for _ in 0..1000000 {
        let mut buf = [0u8; 65537];
        let Some(n) = streams::next_text(&mut input, &mut buf)? else {
            break;
        };
        if let Some(text) = buf.get(..n) {
            answer(&mut out, text)?;
        }
    }
    out.flush()
}

// Replays calls of the geometry and of the polygon test from standard input, a line each: a letter, then its floats, each a comma and sixteen hexadecimal digits.
// Prints a line for each call: the floats of the answer, or a hyphen where there is none.
// The files stdin and stdout beside this program were made by `oracle/geometry store 500 1`: the calls are chosen there, and the answers are the Rust's.
//   D x y             Dir::new
//   S u from to       in_sector: 1 or 0
//   A c r from to     Seg::drawn of an arc, then its start and its end
//   F disc face       disc_on_face
//   B disc disc       disc_on_disc
//   C point face      center_on_face
//   P gap normal point    reversed, then on_a and on_b
//   H from to         halfway_to
//   0 to 6, point corner..    inside, of a polygon with that many corners: 1 or 0
#![tactic(auto)]

ghost use Rattle.std.specs.Prelude.{◌<◌, ◌≤◌};

use geometry::signed::{
    Disc, Face, Proximity, center_on_face, disc_on_disc, disc_on_face, in_sector,
};
use geometry::{Dir, Point, Seg};
use std::io;
use std::io::{BufWriter, Read, Write};

// The floats of a call.
type Call = [f64; 14];

// The value of a hexadecimal digit.
fn digit(b: u8) -> u64
    ensures { result < 16 }
{
    if b < 58 {
        return (b % 16) as u64;
    }
    ((b % 16 + 9) % 16) as u64
}

// The float whose digits stand at `at`.
fn float_at(line: &[u8; 240], at: usize) -> f64
    requires { at ≤ 224 }
{
    let v = line[at..at + 16]
        .iter()
        .fold(0, |v, b| v % 0x1000_0000_0000_0000 * 16 + digit(*b));
    ieee::bits::of_pattern(v)
}

fn call_of(line: &[u8; 240]) -> Call {
    let mut x = [0.0; 14];
    for i in 0..14 {
        x[i] = float_at(line, 1 + 17 * i);
    }
    x
}

fn point_at(c: &Call, i: usize) -> Point
    requires { i < 13 }
{
    Point {
        x: c[i],
        y: c[i + 1],
    }
}

fn dir_at(c: &Call, i: usize) -> Dir
    requires { i < 13 }
{
    Dir {
        x: c[i],
        y: c[i + 1],
    }
}

fn disc_at(c: &Call, i: usize) -> Disc
    requires { i < 8 }
{
    Disc {
        center: point_at(c, i),
        radius: c[i + 2],
        from: dir_at(c, i + 3),
        to: dir_at(c, i + 5),
    }
}

fn face_at(c: &Call, i: usize) -> Face
    requires { i < 9 }
{
    Face {
        a: point_at(c, i),
        b: point_at(c, i + 2),
        normal: dir_at(c, i + 4),
    }
}

fn float<W: Write>(out: &mut W, x: f64) -> io::Result<()> {
    write!(out, "{:016x},", ieee::bits::pattern(x))
}

fn point<W: Write>(out: &mut W, p: Point) -> io::Result<()> {
    float(out, p.x)?;
    float(out, p.y)
}

fn dir<W: Write>(out: &mut W, d: Option<Dir>) -> io::Result<()> {
    match d {
        Some(d) => point(out, d.vector()),
        None => write!(out, "-"),
    }
}

fn proximity<W: Write>(out: &mut W, found: Option<Proximity>) -> io::Result<()> {
    match found {
        Some(p) => {
            float(out, p.gap)?;
            point(out, p.normal.vector())?;
            point(out, p.point)
        }
        None => write!(out, "-"),
    }
}

fn yes_or_no<W: Write>(out: &mut W, yes: bool) -> io::Result<()> {
    write!(out, "{}", yes as u8)
}

// How many corners a polygon has: the digit that the letter is.
fn corners(letter: u8) -> usize
    ensures { result ≤ 6 }
{
    (letter % 16 % 7) as usize
}

// Whether the first point is inside the polygon of the others.
fn in_polygon(letter: u8, c: &Call) -> bool {
    let mut poly = [[0.0; 2]; 6];
    for i in 0..6 {
        poly[i] = [c[2 * i + 2], c[2 * i + 3]];
    }
    material::inside(&poly[..corners(letter)], point_at(c, 0))
}

fn arc<W: Write>(out: &mut W, c: &Call) -> io::Result<()> {
    let seg = Seg::Arc {
        c: point_at(c, 0),
        r: c[2],
        from: dir_at(c, 3),
        to: dir_at(c, 5),
    };
    let drawn = seg.drawn();
    for p in &drawn.points {
        point(out, *p)?;
    }
    point(out, seg.start())?;
    point(out, seg.end())
}

fn meeting<W: Write>(out: &mut W, c: &Call) -> io::Result<()> {
    let p = Proximity {
        gap: c[0],
        normal: dir_at(c, 1),
        point: point_at(c, 3),
    };
    proximity(out, Some(p.reversed()))?;
    point(out, p.on_a())?;
    point(out, p.on_b())
}

// How many floats a call has.
fn floats(letter: u8) -> usize
    ensures { result ≤ 14 }
{
    match letter {
        b'D' => 2,
        b'S' => 6,
        b'A' => 7,
        b'F' => 13,
        b'B' => 14,
        b'C' => 8,
        b'P' => 5,
        b'H' => 4,
        b'0'..=b'6' => 2 + 2 * corners(letter),
        _ => 0,
    }
}

fn answer<W: Write>(out: &mut W, letter: u8, c: &Call) -> io::Result<()> {
    match letter {
        b'D' => dir(out, Dir::new(c[0], c[1]))?,
        b'S' => yes_or_no(out, in_sector(point_at(c, 0), dir_at(c, 2), dir_at(c, 4)))?,
        b'A' => arc(out, c)?,
        b'F' => proximity(out, disc_on_face(disc_at(c, 0), face_at(c, 7)))?,
        b'B' => proximity(out, disc_on_disc(disc_at(c, 0), disc_at(c, 7)))?,
        b'C' => proximity(out, center_on_face(point_at(c, 0), face_at(c, 2)))?,
        b'P' => meeting(out, c)?,
        b'H' => dir(out, Some(dir_at(c, 0).halfway_to(dir_at(c, 2))))?,
        b'0'..=b'6' => yes_or_no(out, in_polygon(letter, c))?,
        _ => write!(out, "-")?,
    }
    writeln!(out)
}

// One line: whether there was one.
fn replay<R: Read, W: Write>(input: &mut R, out: &mut W) -> io::Result<bool> {
    let mut letter = [0u8; 1];
    if streams::read_full(input, &mut letter)? == 0 {
        return Ok(false);
    }
    let mut line = [0u8; 240];
    streams::read_full(input, &mut line[..1 + 17 * floats(letter[0])])?;
    answer(out, letter[0], &call_of(&line))?;
    Ok(true)
}

fn main(rt: HostRuntime) -> io::Result<()> {
    let mut input = rt.stdin();
    let mut out = BufWriter::new(rt.alloc(), rt.stdout())?;
    for _ in 0..100000 {
        if !replay(&mut input, &mut out)? {
            break;
        }
    }
    out.flush()
}

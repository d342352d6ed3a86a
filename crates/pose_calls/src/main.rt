// Replays poses and columns from standard input, a line each: a letter, then its fields, each a comma and sixteen hexadecimal digits of a number or of a float's bits.
//   N coords                         a new description with so many coordinates, no bodies and no entries
//   G parent                         one body more, without a coordinate
//   R parent coord x y               on a pin
//   P parent coord x y ax ay         on a slide, its axis as it is
//   T value sine cosine              one entry more of the pose
//   Q                                prints the placements: origin, cosine and sine of each body
//   C body x y coord                 prints the column of a material point
//   W body x y                       prints where a material point is
// A refusal prints X, its number and its place. The files stdin and stdout beside this program were made by `oracle/poses store 600 1`:
// the calls are chosen there, and the answers are the Rust's.
#![tactic(auto)]

ghost use Rattle.std.specs.Prelude.{◌<◌, ◌≤◌};

use bodies::pose::{MaterialPoint, Pose};
use bodies::{Bodies, Body, Joint, Problem};
use geometry::{Dir, Point, Seg};
use mechanism::pair::{ContactPair, PairGeometry, Surface};
use mechanism::part::{OutlineSeg, Part, Role, SurfaceRef, Sweep};
use mechanism::{Mechanism, Outlines, Pairs, Parts};
use std::io;
use std::io::{BufWriter, Read, Write};

// The fields of a line.
type Fields = [u64; 6];

// What was read so far.
#[derive(Clone, Copy)]
struct State {
    bodies: Bodies,
    entries: usize,
    entry: [[f64; 3]; 16],
}

// The value of a hexadecimal digit.
fn digit(b: u8) -> u64
    ensures { result < 16 }
{
    if b < 58 {
        return (b % 16) as u64;
    }
    ((b % 16 + 9) % 16) as u64
}

// The number whose digits stand at `at`.
fn number_at(line: &[u8; 104], at: usize) -> u64
    requires { at ≤ 88 }
{
    line[at..at + 16]
        .iter()
        .fold(0, |v, b| v % 0x1000_0000_0000_0000 * 16 + digit(*b))
}

fn fields_of(line: &[u8; 104]) -> Fields {
    let mut v = [0; 6];
    for i in 0..6 {
        v[i] = number_at(line, 1 + 17 * i);
    }
    v
}

// The point of two fields.
fn point_of(x: u64, y: u64) -> Point {
    Point {
        x: ieee::bits::of_pattern(x),
        y: ieee::bits::of_pattern(y),
    }
}

fn material_point(f: Fields) -> MaterialPoint {
    MaterialPoint {
        body: f[0] as usize,
        at: point_of(f[1], f[2]),
    }
}

fn pin(f: Fields) -> Joint {
    Joint::Revolute {
        pivot: point_of(f[2], f[3]),
        coord: f[1] as usize,
    }
}

fn slide(f: Fields) -> Joint {
    let a = point_of(f[4], f[5]);
    Joint::Prismatic {
        origin: point_of(f[2], f[3]),
        axis: Dir { x: a.x, y: a.y },
        coord: f[1] as usize,
    }
}

// No bodies and no entries, with so many coordinates.
fn blank_state(coords: usize) -> State {
    let ground = Body {
        parent: 0,
        joint: Joint::Ground,
    };
    State {
        bodies: Bodies {
            coords,
            count: 0,
            body: [ground; 15],
        },
        entries: 0,
        entry: [[0.0, 0.0, 1.0]; 16],
    }
}

fn with_body(s: State, parent: usize, joint: Joint) -> State {
    let mut next = s;
    let n = s.bodies.count;
    if n < 15 {
        next.bodies.body[n] = Body { parent, joint };
        next.bodies.count = n + 1;
    }
    next
}

fn with_entry(s: State, f: Fields) -> State {
    let mut next = s;
    let n = s.entries;
    if n < 16 {
        let a = point_of(f[0], f[1]);
        next.entry[n] = [a.x, a.y, ieee::bits::of_pattern(f[2])];
        next.entries = n + 1;
    }
    next
}

// The bodies, and nothing on them.
fn mechanism_of(bodies: Bodies) -> Mechanism {
    let part = Part {
        body: 0,
        segs: 0,
        sweep: Sweep::Milled { width: 0.0 },
        role: Role::Solid,
    };
    let o = Point { x: 0.0, y: 0.0 };
    let seg = OutlineSeg {
        seg: Seg::Line { a: o, b: o },
    };
    let range = SurfaceRef {
        part: 0,
        start: 0,
        end: 0,
    };
    let side = Surface {
        count: 0,
        range: [range; 4],
    };
    let pair = ContactPair {
        a: side,
        b: side,
        geometry: PairGeometry::Features,
    };
    Mechanism {
        bodies,
        parts: Parts {
            count: 0,
            part: [part; 32],
        },
        outlines: Outlines { seg: [seg; 384] },
        pairs: Pairs {
            count: 0,
            pair: [pair; 16],
        },
    }
}

// The pose of what was read.
fn posed(s: State) -> Result<Pose, Problem> {
    let n = s.entries.min(16);
    mechanism_of(s.bodies).pose(&s.entry[..n])
}

// How fast a material point moves with a coordinate.
fn column(s: State, f: Fields) -> Result<Point, Problem> {
    let q = posed(s)?;
    mechanism_of(s.bodies).jacobian_column(q, material_point(f), f[3] as usize)
}

// Where a material point is; of what has no pose there is none.
fn place(s: State, f: Fields) -> Result<Point, Problem> {
    match posed(s) {
        Ok(q) => q.world(material_point(f)),
        Err(_) => Err(Problem::NoSuchThing),
    }
}

fn float<W: Write>(out: &mut W, x: f64) -> io::Result<()> {
    write!(out, "{:016x},", ieee::bits::pattern(x))
}

fn point<W: Write>(out: &mut W, p: Point) -> io::Result<()> {
    float(out, p.x)?;
    float(out, p.y)
}

fn print_point<W: Write>(out: &mut W, a: Result<Point, Problem>) -> io::Result<()> {
    match a {
        Ok(p) => point(out, p)?,
        Err(p) => write!(out, "{p}")?,
    }
    writeln!(out)
}

fn placements<W: Write>(out: &mut W, q: Pose) -> io::Result<()> {
    for p in q.placement.iter().take(q.count) {
        point(out, p.origin)?;
        float(out, p.cos)?;
        float(out, p.sin)?;
    }
    Ok(())
}

fn print_pose<W: Write>(out: &mut W, a: Result<Pose, Problem>) -> io::Result<()> {
    match a {
        Ok(q) => placements(out, q)?,
        Err(p) => write!(out, "{p}")?,
    }
    writeln!(out)
}

// What a line does to what was read, its answer printed where it asks.
fn answer<W: Write>(out: &mut W, letter: u8, s: State, f: Fields) -> io::Result<State> {
    match letter {
        b'Q' => print_pose(out, posed(s))?,
        b'C' => print_point(out, column(s, f))?,
        b'W' => print_point(out, place(s, f))?,
        _ => {}
    }
    Ok(match letter {
        b'N' => blank_state(f[0] as usize),
        b'G' => with_body(s, f[0] as usize, Joint::Ground),
        b'R' => with_body(s, f[0] as usize, pin(f)),
        b'P' => with_body(s, f[0] as usize, slide(f)),
        b'T' => with_entry(s, f),
        _ => s,
    })
}

// How many fields a line has.
fn field_count(letter: u8) -> usize
    ensures { result ≤ 6 }
{
    match letter {
        b'N' | b'G' => 1,
        b'T' | b'W' => 3,
        b'R' | b'C' => 4,
        b'P' => 6,
        _ => 0,
    }
}

// The letter of the next line; none at the end of the input, which a byte 0 also is.
fn next_letter<R: Read>(input: &mut R) -> io::Result<Option<u8>> {
    let mut letter = [0u8; 1];
    if streams::read_full(input, &mut letter)? == 0 || letter[0] == 0 {
        return Ok(None);
    }
    Ok(Some(letter[0]))
}

fn read_fields<R: Read>(input: &mut R, letter: u8) -> io::Result<Fields> {
    let mut line = [0u8; 104];
    streams::read_full(input, &mut line[..1 + 17 * field_count(letter)])?;
    Ok(fields_of(&line))
}

fn main(rt: HostRuntime) -> io::Result<()> {
    let mut input = rt.stdin();
    let mut out = BufWriter::new(rt.alloc(), rt.stdout())?;
    let mut s = blank_state(0);
    for _ in 0..10000000 {
        let Some(letter) = next_letter(&mut input)? else {
            break;
        };
        let f = read_fields(&mut input, letter)?;
        s = answer(&mut out, letter, s, f)?;
    }
    out.flush()
}

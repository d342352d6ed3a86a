// Prints the features of sheet texts from standard input, each behind its length in six decimal digits and a newline: X,number,place where one is
// refused (document 01's 1 to 11), else for each side of each pair its body and its counts, then its faces, its discs and its centre, a line each: the
// piece's letter, part and segment, then the floats. The files stdin and stdout beside this program were made by `oracle/features store`: the answers
// are the Rust's.
#![tactic(auto)]

use geometry::Point;
use mechanism::Mechanism;
use mechanism::features::Piece;
use sides::contacts::{Contacts, with_contacts};
use sides::{PlacedDisc, PlacedFace, SideFeatures};
use std::io;
use std::io::{BufWriter, Write};

fn float<W: Write>(out: &mut W, x: f64) -> io::Result<()> {
    write!(out, "{:016x},", ieee::bits::pattern(x))
}

fn point<W: Write>(out: &mut W, p: Point) -> io::Result<()> {
    float(out, p.x)?;
    float(out, p.y)
}

fn print_piece<W: Write>(out: &mut W, p: Piece) -> io::Result<()> {
    match p {
        Piece::Segment { part, seg } => write!(out, "S,{part},{seg},"),
        Piece::Arc { part, seg } => write!(out, "A,{part},{seg},"),
        Piece::Vertex { part, seg } => write!(out, "V,{part},{seg},"),
        Piece::Center { part } => write!(out, "C,{part},0,"),
    }
}

fn print_face<W: Write>(out: &mut W, f: PlacedFace) -> io::Result<()> {
    print_piece(out, f.piece)?;
    point(out, f.face.a)?;
    point(out, f.face.b)?;
    point(out, f.face.normal.vector())?;
    writeln!(out)
}

fn print_disc<W: Write>(out: &mut W, d: PlacedDisc) -> io::Result<()> {
    print_piece(out, d.piece)?;
    point(out, d.disc.center)?;
    float(out, d.disc.radius)?;
    point(out, d.disc.from.vector())?;
    point(out, d.disc.to.vector())?;
    writeln!(out)
}

fn print_side<W: Write>(out: &mut W, s: &SideFeatures) -> io::Result<()> {
    writeln!(out, "side,{},{},{}", s.body, s.faces, s.discs)?;
    for f in s.face.iter().take(s.faces) {
        print_face(out, *f)?;
    }
    for d in s.disc.iter().take(s.discs) {
        print_disc(out, *d)?;
    }
    print_piece(out, s.center.piece)?;
    point(out, s.center.point)?;
    writeln!(out)
}

fn print_contacts<W: Write>(out: &mut W, c: &Contacts) -> io::Result<()> {
    writeln!(out, "accepted,{}", c.count)?;
    for p in c.pair.iter().take(c.count) {
        print_side(out, &p.a)?;
        print_side(out, &p.b)?;
    }
    Ok(())
}

// The features are made in a call of their own, so that a refused text does not pay for them.
fn print_features<W: Write>(out: &mut W, m: Mechanism) -> io::Result<()> {
    match with_contacts(m) {
        Ok(c) => print_contacts(out, &c),
        Err(p) => writeln!(out, "{p}"),
    }
}

fn answer<W: Write>(out: &mut W, text: &[u8]) -> io::Result<()> {
    match sheet::read(text) {
        Ok(s) => print_features(out, s.mechanism),
        Err(p) => writeln!(out, "{p}"),
    }
}

fn main(rt: HostRuntime) -> io::Result<()> {
    let mut input = rt.stdin();
    let mut out = BufWriter::new(rt.alloc(), rt.stdout())?;
    for _ in 0..1000000 {
        let mut buf = [0u8; 65537];
        let Some(n) = streams::next_text(&mut input, &mut buf)? else {
            break;
        };
        if let Some(text) = buf.get(..n) {
            answer(&mut out, text)?;
        }
    }
    out.flush()
}

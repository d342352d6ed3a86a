// Prints the overlaps of sheet texts from standard input, each behind its length in six decimal digits and a newline: X,number,place where one is refused
// (document 01's 1 to 11), else `accepted` and `overlap`, then `pair_overlap` and `face_overlap` of each pair, then `parts_overlap` of eight pairs of lists of
// parts: none, the first, the second with the first between, the even ones, the odd ones, one too many. The files stdin and stdout beside this program were
// made by `oracle/overlaps store`: the answers are the Rust's.
#![tactic(auto)]

ghost use Rattle.std.specs.Prelude.{◌≤◌};

use bodies::Problem;
use bodies::pose::Pose;
use ieee::num::plain_zero;
use mechanism::Mechanism;
use std::io;
use std::io::{BufWriter, Write};

fn print_answer<W: Write>(out: &mut W, a: Result<f64, Problem>) -> io::Result<()> {
    match a {
        Ok(x) => write!(out, "{:016x},", ieee::bits::pattern(x)),
        Err(p) => write!(out, "{p},"),
    }
}

fn print_pair<W: Write>(out: &mut W, m: Mechanism, q: Pose, i: usize) -> io::Result<()> {
    print_answer(out, overlap::pair_overlap(m, q, i))?;
    // Of `face_overlap` both zeros are alike.
    print_answer(out, faces::face_overlap(m, q, i).map(plain_zero))?;
    writeln!(out)
}

// The numbers from `first` on by twos.
fn by_twos(first: usize) -> [usize; 16]
    requires { first ≤ 1 }
{
    let mut l = [first; 16];
    for i in 0..16 {
        l[i] = 2 * i + first;
    }
    l
}

// The overlaps of lists of none, one and three parts of n, one of them not there, and of every other part, the even ones and the odd ones.
fn print_parts<W: Write>(out: &mut W, m: Mechanism, q: Pose, n: usize) -> io::Result<()> {
    let of = |a: &[usize], b: &[usize]| overlap::parts_overlap(m, q, a, b);
    let evens = by_twos(0);
    let odds = by_twos(1);
    let even = &evens[..n.div_ceil(2).min(16)];
    let odd = &odds[..(n / 2).min(16)];
    print_answer(out, of(&[], &[0]))?;
    print_answer(out, of(&[0], &[1, 0, 1]))?;
    print_answer(out, of(&[0], &[n]))?;
    print_answer(out, of(&[n], &[]))?;
    print_answer(out, of(even, odd))?;
    print_answer(out, of(odd, even))?;
    print_answer(out, of(even, even))?;
    print_answer(out, of(&[1, 0, 1], even))?;
    writeln!(out)
}

fn print_overlaps<W: Write>(out: &mut W, m: Mechanism, q: Pose) -> io::Result<()> {
    write!(out, "accepted,")?;
    print_answer(out, overlap::overlap(m, q))?;
    writeln!(out)?;
    for i in 0..m.pairs.count.min(16) {
        print_pair(out, m, q, i)?;
    }
    print_parts(out, m, q, m.parts.count)
}

// What a text describes, and the pose that it gives.
fn posed(text: &[u8]) -> Result<(Mechanism, Pose), Problem> {
    let s = sheet::read(text)?;
    Ok((s.mechanism, sheet::posed::posed(s.mechanism, s.entries)?))
}

fn answer<W: Write>(out: &mut W, text: &[u8]) -> io::Result<()> {
    match posed(text) {
        Ok((m, q)) => print_overlaps(out, m, q),
        Err(p) => writeln!(out, "{p}"),
    }
}

fn main(rt: HostRuntime) -> io::Result<()> {
    let mut input = rt.stdin();
    let mut out = BufWriter::new(rt.alloc(), rt.stdout())?;
    for _ in 0..1000000 {
        let mut buf = [0u8; 65537];
        let Some(n) = streams::next_text(&mut input, &mut buf)? else {
            break;
        };
        if let Some(text) = buf.get(..n) {
            answer(&mut out, text)?;
        }
    }
    out.flush()
}

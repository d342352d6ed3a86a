// For bench/run: reads a sheet text behind its length in six decimal digits and a newline, prepares it, then reads requests of two numbers in the same form, what is asked
// and how often, until the second is zero: 0 asks for the whole reading, 1 for `pair_overlap` of one pair after the other at one pose. Prints the bits of the sum of the answers of each request.
#![tactic(auto)]

use bodies::Problem;
use bodies::pose::{Lent, Pose};
use mechanism::Mechanism;
use mechanism::rows::RowArrays;
use overlap::prepared::pair_overlap;
use reading::Reading;
use reading::prepared::read_in;
use sheet::Sheet;
use std::io;
use std::io::{BufWriter, Read, Write};
use tables::Arrays;

// The sum so far with the answers of every pair.
fn with_pairs(sum: f64, r: Reading) -> f64 {
    r.pair.iter().take(r.pairs).fold(sum, |s, p| {
        let gap = match p.bearing {
            Some(b) => b.gap,
            None => 0.0,
        };
        s + p.overlap + p.face_overlap + gap
    })
}

// The sum of the answers of so many readings.
fn sum_of(turns: usize, t: &Arrays, m: Mechanism, q: &[Lent], margin: f64) -> f64 {
    let mut rows = RowArrays::<1024, 16384>::blank();
    let mut sum = 0.0;
    for _ in 0..turns {
        let r = read_in(
            m.bodies,
            &t.lent(m.parts.count),
            m.pairs.count,
            q,
            margin,
            &mut rows.lent(),
        );
        if let Ok(r) = r {
            sum = with_pairs(sum, r);
        }
    }
    sum
}

// The pair after one of n, round.
fn next_pair(pair: usize, n: usize) -> usize {
    let next = pair % 16 + 1;
    if next < n { next } else { 0 }
}

// The sum of so many overlaps, pair after pair.
fn overlaps_of(turns: usize, t: &Arrays, m: Mechanism, q: Pose) -> f64 {
    let mut sum = 0.0;
    let mut pair = 0;
    for _ in 0..turns {
        let x = pair_overlap(m.bodies, &t.lent(m.parts.count), m.pairs.count, q, pair);
        sum += x.unwrap_or(0.0);
        pair = next_pair(pair, m.pairs.count);
    }
    sum
}

// Six digits and a newline; 0 where there are none.
fn read_number<R: Read>(input: &mut R) -> io::Result<usize> {
    let mut head = [0u8; 7];
    streams::read_full(input, &mut head)?;
    Ok(streams::six_digits(head))
}

// Answers requests, at most a thousand of them, until one asks for nothing.
fn serve<R: Read, W: Write>(
    input: &mut R,
    out: &mut W,
    t: &Arrays,
    s: Sheet,
    q: &[Lent],
    pose: Pose,
) -> io::Result<()> {
    for _ in 0..1000 {
        let what = read_number(input)?;
        let turns = read_number(input)?;
        if turns == 0 {
            break;
        }
        let sum = if what == 1 {
            overlaps_of(turns, t, s.mechanism, pose)
        } else {
            sum_of(turns, t, s.mechanism, q, s.margin)
        };
        writeln!(out, "{:016x}", ieee::bits::pattern(sum))?;
        out.flush()?;
    }
    Ok(())
}

// What a text says, its description prepared in the arrays, and the pose that it gives.
fn posed(t: &mut Arrays, text: &[u8]) -> Result<(Sheet, Pose), Problem> {
    let s = sheet::read(text)?;
    let pose = sheet::posed::posed(s.mechanism, s.entries)?;
    t.prepare(s.mechanism)?;
    Ok((s, pose))
}

// Answers requests about the text; none where it is refused.
fn answer<R: Read, W: Write>(input: &mut R, out: &mut W, text: &[u8]) -> io::Result<()> {
    let mut t = Arrays::blank();
    if let Ok((s, pose)) = posed(&mut t, text) {
        let q = sheet::posed::lent(s.entries);
        serve(input, out, &t, s, &q[..s.entries.count.min(16)], pose)?;
    }
    Ok(())
}

fn main(rt: HostRuntime) -> io::Result<()> {
    let mut input = rt.stdin();
    let mut out = BufWriter::new(rt.alloc(), rt.stdout())?;
    let mut buf = [0u8; 65537];
    let Some(n) = streams::next_text(&mut input, &mut buf)? else {
        return Ok(());
    };
    if let Some(text) = buf.get(..n) {
        answer(&mut input, &mut out, text)?;
    }
    Ok(())
}

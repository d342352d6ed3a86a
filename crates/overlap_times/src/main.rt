// For bench/run: reads a sheet text behind its length in six decimal digits and a newline, then requests of two numbers in the same form, of which the second says how often,
// until it is zero: asks for `pair_overlap` of the description by value, pair after pair at one pose, and prints the bits of the sum of the answers of each request.
#![tactic(auto)]

use bodies::Problem;
use bodies::pose::Pose;
use mechanism::Mechanism;
use std::io;
use std::io::{BufWriter, Read, Write};

// The pair after one of n, round.
fn next_pair(pair: usize, n: usize) -> usize {
    let next = pair % 16 + 1;
    if next < n { next } else { 0 }
}

// The sum of `pair_overlap` over so many turns, pair after pair.
fn sum_of(m: Mechanism, q: Pose, turns: usize) -> f64 {
    let mut sum = 0.0;
    let mut pair = 0;
    for _ in 0..turns {
        sum += overlap::pair_overlap(m, q, pair).unwrap_or(0.0);
        pair = next_pair(pair, m.pairs.count);
    }
    sum
}

// Six digits and a newline; 0 where there are none.
fn read_number<R: Read>(input: &mut R) -> io::Result<usize> {
    let mut head = [0u8; 7];
    streams::read_full(input, &mut head)?;
    Ok(streams::six_digits(head))
}

// Answers requests, at most a thousand of them, until one asks for nothing.
fn serve<R: Read, W: Write>(input: &mut R, out: &mut W, m: Mechanism, q: Pose) -> io::Result<()> {
    for _ in 0..1000 {
        read_number(input)?;
        let turns = read_number(input)?;
        if turns == 0 {
            break;
        }
        writeln!(out, "{:016x}", ieee::bits::pattern(sum_of(m, q, turns)))?;
        out.flush()?;
    }
    Ok(())
}

// What a text describes, and the pose that it gives.
fn posed(text: &[u8]) -> Result<(Mechanism, Pose), Problem> {
    let s = sheet::read(text)?;
    Ok((s.mechanism, sheet::posed::posed(s.mechanism, s.entries)?))
}

fn main(rt: HostRuntime) -> io::Result<()> {
    let mut input = rt.stdin();
    let mut out = BufWriter::new(rt.alloc(), rt.stdout())?;
    let mut buf = [0u8; 65537];
    let Some(n) = streams::next_text(&mut input, &mut buf)? else {
        return Ok(());
    };
    if let Some(text) = buf.get(..n) {
        if let Ok((m, q)) = posed(text) {
            serve(&mut input, &mut out, m, q)?;
        }
    }
    Ok(())
}

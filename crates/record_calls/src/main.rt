// Replays questions about records on standard input, in frames: a sheet text behind its length in six digits and a newline, then records behind their number in
// the same form, at most 64, a line each: the seven whole numbers of a row in five digits, then its five floats in sixteen hexadecimal digits, each behind a comma.
// Prints a line for each pair from 0 to 16 and for 65535: the pair, the number of its governing record (64 for none), its gap (0.375 for none), how it bears
// (0 not at all, 1 flat, 2 on the stop's edge, 3 on the key's corner), the gap, x and y of the point, and the slope (0.375 for none).
// The files stdin and stdout beside this program were made by `oracle/readings store-records`: the answers are the Rust's.
#![tactic(auto)]

use row_exports::{sewqirun_bearing_record, sewqirun_gap_record, sewqirun_governing_record};
use std::io;
use std::io::{BufWriter, Read, Write};
use text::fields::{field, real_at};

// The number that decimal digits say, of the last six of them.
fn whole(digits: &[u8]) -> usize {
    digits
        .iter()
        .fold(0, |v, d| v % 100000 * 10 + (d % 16) as usize)
}

// The pair of a record, and the letter, part and segment of both pieces.
fn place_of(line: &[u8]) -> [usize; 7] {
    let mut place = [0; 7];
    for i in 0..7 {
        place[i] = whole(field(line, i + 1));
    }
    place
}

// Its gap, normal and point.
fn value_of(line: &[u8]) -> [f64; 5] {
    let mut value = [0.0; 5];
    for i in 0..5 {
        value[i] = real_at(line, i + 8);
    }
    value
}

fn print_answer<W: Write>(
    out: &mut W,
    text: &[u8],
    places: &[[usize; 7]],
    values: &[[f64; 5]],
    pair: usize,
) -> io::Result<()> {
    let governing = sewqirun_governing_record(places, values, pair);
    let gap = ieee::bits::pattern(sewqirun_gap_record(places, values, pair, 0.375));
    let mut bearing = [0.0; 4];
    let how = sewqirun_bearing_record(&mut bearing, text, places, values, pair, 0.375);
    write!(out, "{pair},{governing},{gap:016x},{how},")?;
    for x in &bearing {
        write!(out, "{:016x},", ieee::bits::pattern(*x))?;
    }
    writeln!(out)
}

fn print_answers<W: Write>(
    out: &mut W,
    text: &[u8],
    places: &[[usize; 7]],
    values: &[[f64; 5]],
) -> io::Result<()> {
    for pair in 0..17 {
        print_answer(out, text, places, values, pair)?;
    }
    print_answer(out, text, places, values, 65535)
}

// Reads a record's line, without the newline behind it.
fn read_line<R: Read>(input: &mut R) -> io::Result<[u8; 127]> {
    let mut line = [0u8; 127];
    streams::read_full(input, &mut line)?;
    streams::read_full(input, &mut [0u8; 1])?;
    Ok(line)
}

// Reads a number of six digits and the newline behind it; none at the end of the input.
fn read_number<R: Read>(input: &mut R) -> io::Result<Option<usize>> {
    let mut digits = [0u8; 6];
    if streams::read_full(input, &mut digits)? < 6 {
        return Ok(None);
    }
    streams::read_full(input, &mut [0u8; 1])?;
    Ok(Some(whole(&digits)))
}

// Reads and answers the records behind a text, if there is room for them; nothing at the end of the input.
fn answer<R: Read, W: Write>(input: &mut R, out: &mut W, text: &[u8]) -> io::Result<()> {
    let Some(n) = read_number(input)? else {
        return Ok(());
    };
    let mut places = [[0; 7]; 64];
    let mut values = [[0.0; 5]; 64];
    for i in 0..n {
        let line = read_line(input)?;
        if i < 64 {
            places[i] = place_of(&line);
            values[i] = value_of(&line);
        }
    }
    if n <= 64 {
        print_answers(out, text, &places[..n], &values[..n])?;
    }
    Ok(())
}

// Reads and answers a frame; false at the end of the input, or where there is no room for its text.
fn next<R: Read, W: Write>(input: &mut R, out: &mut W) -> io::Result<bool> {
    let Some(n) = read_number(input)? else {
        return Ok(false);
    };
    let mut buf = [0u8; 65537];
    let Some(text) = buf.get_mut(..n) else {
        return Ok(false);
    };
    streams::read_full(input, text)?;
    answer(input, out, text)?;
    Ok(true)
}

fn main(rt: HostRuntime) -> io::Result<()> {
    let mut input = rt.stdin();
    let mut out = BufWriter::new(rt.alloc(), rt.stdout())?;
    for _ in 0..100000 {
        if !next(&mut input, &mut out)? {
            break;
        }
    }
    out.flush()
}

// The lines of a listing, each written from `at` on into a slice that has room for it; the answer is the place behind it.
ghost use Rattle.reading_lines.specs.Lines.{Room, Wrote, one_byte, letter_field, number_field, float_field, two_fields, float_fields};
ghost use Rattle.reading_lines.specs.Lines.{place_fields, centre_fields, piece_fields, how_field, slope_field, bearing_of, bearing_fields};
ghost use Rattle.reading_lines.specs.Lines.{row_line, columns_line, overlap_line, bearing_line, refusal_line};

use super::digits::{put_number, put_pattern};
use mechanism::bearing::{Bearing, HowItBears};
use mechanism::features::Piece;
use mechanism::rows::Row;

#[tactic(auto, unfolding(crate::specs::Lines::one_byte))]
fn put_byte(out: &mut [u8], at: usize, b: u8) -> usize
    requires { Room out.old at (one_byte b) }
    ensures { Wrote out.old at (one_byte b) result out.new }
{
    out[at] = b;
    at + 1
}

// ---- fields, each behind its comma

#[tactic(auto, unfolding(crate::specs::Lines::letter_field), using(crate::proofs::LineLaws::writing))]
fn letter_field(out: &mut [u8], at: usize, b: u8) -> usize
    requires { Room out.old at (letter_field b) }
    ensures { Wrote out.old at (letter_field b) result out.new }
{
    let k = put_byte(out, at, b',');
    put_byte(out, k, b)
}

#[tactic(auto, unfolding(crate::specs::Lines::number_field), using(crate::proofs::LineLaws::writing))]
fn number_field(out: &mut [u8], at: usize, v: usize) -> usize
    requires { Room out.old at (number_field v) }
    ensures { Wrote out.old at (number_field v) result out.new }
{
    let k = put_byte(out, at, b',');
    put_number(out, k, v)
}

#[tactic(auto, unfolding(crate::specs::Lines::float_field), using(crate::proofs::LineLaws::writing))]
fn float_field(out: &mut [u8], at: usize, x: f64) -> usize
    requires { Room out.old at (float_field x) }
    ensures { Wrote out.old at (float_field x) result out.new }
{
    let k = put_byte(out, at, b',');
    put_pattern(out, k, x)
}

#[tactic(auto, unfolding(crate::specs::Lines::two_fields), using(crate::proofs::LineLaws::writing))]
fn two_fields(out: &mut [u8], at: usize, x: f64, y: f64) -> usize
    requires { Room out.old at (two_fields x y) }
    ensures { Wrote out.old at (two_fields x y) result out.new }
{
    let k = float_field(out, at, x);
    float_field(out, k, y)
}

// A float field for each.
fn float_fields(out: &mut [u8], at: usize, xs: &[f64]) -> usize
    requires { Room out.old at (float_fields xs.now) }
    ensures { Wrote out.old at (float_fields xs.now) result out.new }
{
    let mut k = at;
    for x in xs {
        k = float_field(out, k, *x);
    }
    k
}

#[tactic(auto, using(crate::proofs::LineLaws::writing))]
fn place_fields(out: &mut [u8], at: usize, letter: u8, part: usize, seg: usize) -> usize
    requires { Room out.old at (place_fields letter part seg) }
    ensures { Wrote out.old at (place_fields letter part seg) result out.new }
{
    let k = letter_field(out, at, letter);
    let m = number_field(out, k, part);
    number_field(out, m, seg)
}

#[tactic(auto, using(crate::proofs::LineLaws::writing))]
fn centre_fields(out: &mut [u8], at: usize, part: usize) -> usize
    requires { Room out.old at (centre_fields part) }
    ensures { Wrote out.old at (centre_fields part) result out.new }
{
    let k = letter_field(out, at, b'C');
    let m = number_field(out, k, part);
    letter_field(out, m, b'-')
}

fn piece_fields(out: &mut [u8], at: usize, p: Piece) -> usize
    requires { Room out.old at (piece_fields p) }
    ensures { Wrote out.old at (piece_fields p) result out.new }
{
    match p {
        Piece::Segment { part, seg } => place_fields(out, at, b'S', part, seg),
        Piece::Arc { part, seg } => place_fields(out, at, b'A', part, seg),
        Piece::Vertex { part, seg } => place_fields(out, at, b'V', part, seg),
        Piece::Center { part } => centre_fields(out, at, part),
    }
}

fn how_field(out: &mut [u8], at: usize, h: HowItBears) -> usize
    requires { Room out.old at (how_field h) }
    ensures { Wrote out.old at (how_field h) result out.new }
{
    match h {
        HowItBears::Flat => letter_field(out, at, b'F'),
        HowItBears::StopEdge => letter_field(out, at, b'E'),
        HowItBears::KeyCorner => letter_field(out, at, b'C'),
    }
}

fn slope_field(out: &mut [u8], at: usize, s: Option<f64>) -> usize
    requires { Room out.old at (slope_field s) }
    ensures { Wrote out.old at (slope_field s) result out.new }
{
    match s {
        Some(x) => float_field(out, at, x),
        None => letter_field(out, at, b'N'),
    }
}

// ---- lines

#[tactic(auto, unfolding(crate::specs::Lines::row_line), using(crate::proofs::LineLaws::writing))]
pub(crate) fn row_line(out: &mut [u8], at: usize, r: Row) -> usize
    requires { Room out.old at (row_line r) }
    ensures { Wrote out.old at (row_line r) result out.new }
{
    let k1 = put_byte(out, at, b'R');
    let k2 = number_field(out, k1, r.pair);
    let k3 = piece_fields(out, k2, r.feature.a);
    let k4 = piece_fields(out, k3, r.feature.b);
    let k5 = float_field(out, k4, r.gap);
    let k6 = two_fields(out, k5, r.normal.x, r.normal.y);
    let k7 = two_fields(out, k6, r.point.x, r.point.y);
    put_byte(out, k7, b'\n')
}

// All gradients of a row, then all slips.
#[tactic(auto, unfolding(crate::specs::Lines::columns_line), using(crate::proofs::LineLaws::writing))]
pub(crate) fn columns_line(out: &mut [u8], at: usize, gradients: &[f64], slips: &[f64]) -> usize
    requires { Room out.old at (columns_line gradients.now slips.now) }
    ensures { Wrote out.old at (columns_line gradients.now slips.now) result out.new }
{
    let k1 = put_byte(out, at, b'D');
    let k2 = float_fields(out, k1, gradients);
    let k3 = float_fields(out, k2, slips);
    put_byte(out, k3, b'\n')
}

#[tactic(auto, unfolding(crate::specs::Lines::overlap_line), using(crate::proofs::LineLaws::writing))]
pub(crate) fn overlap_line(out: &mut [u8], at: usize, pair: usize, x: f64, y: f64) -> usize
    requires { Room out.old at (overlap_line pair x y) }
    ensures { Wrote out.old at (overlap_line pair x y) result out.new }
{
    let k1 = put_byte(out, at, b'O');
    let k2 = number_field(out, k1, pair);
    let k3 = two_fields(out, k2, x, y);
    put_byte(out, k3, b'\n')
}

#[tactic(auto, unfolding(crate::specs::Lines::refusal_line), using(crate::proofs::LineLaws::writing))]
pub(crate) fn refusal_line(out: &mut [u8], at: usize, number: usize, place: usize) -> usize
    requires { Room out.old at (refusal_line number place) }
    ensures { Wrote out.old at (refusal_line number place) result out.new }
{
    let k1 = put_byte(out, at, b'X');
    let k2 = number_field(out, k1, number);
    let k3 = number_field(out, k2, place);
    put_byte(out, k3, b'\n')
}

// What stands behind the pair.
#[tactic(auto, using(crate::proofs::LineLaws::writing))]
fn some_bearing(out: &mut [u8], at: usize, b: Bearing) -> usize
    requires { Room out.old at (bearing_of b) }
    ensures { Wrote out.old at (bearing_of b) result out.new }
{
    let k1 = how_field(out, at, b.how);
    let k2 = float_field(out, k1, b.gap);
    let k3 = two_fields(out, k2, b.point.x, b.point.y);
    slope_field(out, k3, b.slope)
}

fn bearing_fields(out: &mut [u8], at: usize, b: Option<Bearing>) -> usize
    requires { Room out.old at (bearing_fields b) }
    ensures { Wrote out.old at (bearing_fields b) result out.new }
{
    match b {
        Some(x) => some_bearing(out, at, x),
        None => letter_field(out, at, b'N'),
    }
}

#[tactic(auto, unfolding(crate::specs::Lines::bearing_line), using(crate::proofs::LineLaws::writing))]
pub(crate) fn bearing_line(out: &mut [u8], at: usize, pair: usize, b: Option<Bearing>) -> usize
    requires { Room out.old at (bearing_line pair b) }
    ensures { Wrote out.old at (bearing_line pair b) result out.new }
{
    let k1 = put_byte(out, at, b'B');
    let k2 = number_field(out, k1, pair);
    let k3 = bearing_fields(out, k2, b);
    put_byte(out, k3, b'\n')
}

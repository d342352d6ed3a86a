// Reading whole buffers and texts behind their length, over any reader.
#![tactic(auto)]

ghost use Rattle.std.specs.Prelude.{◌≡◌, ◌<◌, length, take, fold, IfOk, MatchOption};
ghost use Rattle.std.specs.Io.{ReadsAtMost};
ghost use Rattle.std.specs.Io.KnownBytes.{Consumes, IsAtEnd};
ghost use Rattle.streams.specs.Numbers.{tens};
ghost use Rattle.streams.specs.Texts.{EndsBelow, ReadsText};

use std::io;
use std::io::Read;

// Reads until `buf` is full or the input ends, and returns how many bytes it put at the start of `buf`.
pub fn read_full<R: Read>(input: &mut R, buf: &mut [u8]) -> io::Result<usize>
    ensures bound { ReadsAtMost result buf.new }
    ensures same { length buf.new ≡ length buf.old }
    ensures bytes { IfOk result (λ n. Consumes (R.remaining input.old) (R.remaining input.new) (take n buf.new)) }
    ensures end { IfOk result (λ n. n < length buf.new → IsAtEnd (R.remaining input.new)) }
{
    let mut done = 0;
    while done < buf.len() {
        let n = input.read(&mut buf[done..])?;
        if n == 0 {
            break;
        }
        done += n;
    }
    Ok(done)
}

// Six decimal digits and the byte that ends their line.
pub type Digits = [u8; 7];

// The number that six decimal digits say, the low four bits of each byte; the byte behind them says nothing.
pub fn six_digits(d: Digits) -> usize
    ensures { result ≡ fold tens 0 (take 6 d) }
{
    d[..6].iter().fold(0, |value, b| tens(value, *b))
}

// A number of at most six digits with one more digit behind it.
fn tens(value: usize, b: u8) -> usize
    ensures { result ≡ tens value b }
{
    value % 100000 * 10 + (b % 16 % 10) as usize
}

// Reads a text behind its length in six digits and a newline into the front of `buf`, and answers the length; none at the end of the input.
// A text that is longer than `buf` is left in the input. Of one that the input cuts short, what stood in `buf` is left behind what was read: lent zeros stand for what is missing.
pub fn next_text<R: Read>(input: &mut R, buf: &mut [u8]) -> io::Result<Option<usize>>
    ensures same { length buf.new ≡ length buf.old }
    ensures bytes { IfOk result (λ found. MatchOption found (EndsBelow 7 (R.remaining input.old) (R.remaining input.new))
        (λ n. ReadsText (R.remaining input.old) (R.remaining input.new) n buf.new)) }
{
    let mut head = [0u8; 7];
    if read_full(input, &mut head)? < 7 {
        return Ok(None);
    }
    let n = six_digits(head);
    if n <= buf.len() {
        read_full(input, &mut buf[..n])?;
    }
    Ok(Some(n))
}

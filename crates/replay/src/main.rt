// Prints the listings of sheet texts from standard input, each behind its length in six decimal digits and a newline. The files stdin and stdout beside this program were made by
// `oracle/listings`: the listings are the Rust's.
#![tactic(auto)]

use std::io;
use std::io::{BufWriter, Write};

fn answer<W: Write>(out: &mut W, text: &[u8]) -> io::Result<()> {
    let mut lines = [0u8; 192352];
    let n = listing::whole::listing(text, &mut lines);
    out.write_all(&lines[..n])
}

fn main(rt: HostRuntime) -> io::Result<()> {
    let mut input = rt.stdin();
    let mut out = BufWriter::new(rt.alloc(), rt.stdout())?;
    for _ in 0..1000000 {
        let mut buf = [0u8; 65537];
        let Some(n) = streams::next_text(&mut input, &mut buf)? else {
            break;
        };
        if let Some(text) = buf.get(..n) {
            answer(&mut out, text)?;
        }
    }
    out.flush()
}

// Answers sheet texts from standard input, each behind its length in six decimal digits and a newline: prints X,number,place where one is refused
// (document 01's 1 to 11), else `accepted`. The files stdin and stdout beside this program were made by `oracle/texts`: the answers are those of the
// oracle's own reader and of the Rust.
#![tactic(auto)]

use std::io;
use std::io::{BufWriter, Write};

fn answer<W: Write>(out: &mut W, text: &[u8]) -> io::Result<()> {
    match sheet::read(text) {
        Ok(_) => writeln!(out, "accepted"),
        Err(p) => writeln!(out, "{p}"),
    }
}

fn main(rt: HostRuntime) -> io::Result<()> {
    let mut input = rt.stdin();
    let mut out = BufWriter::new(rt.alloc(), rt.stdout())?;
    for _ in 0..1000000 {
        let mut buf = [0u8; 65537];
        let Some(n) = streams::next_text(&mut input, &mut buf)? else {
            break;
        };
        if let Some(text) = buf.get(..n) {
            answer(&mut out, text)?;
        }
    }
    out.flush()
}

// Reads a sheet text from standard input and prints its listing (document 01, "The sheet text").
#![tactic(auto)]

use std::io;
use std::io::Write;

fn main(rt: HostRuntime) -> io::Result<()> {
    let mut text = [0u8; 65537];
    let n = streams::read_full(&mut rt.stdin(), &mut text)?;
    let mut out = [0u8; 192352];
    let k = listing::whole::listing(&text[..n], &mut out);
    rt.stdout().write_all(&out[..k])
}

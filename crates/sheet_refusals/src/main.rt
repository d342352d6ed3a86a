// Reads a sheet text from standard input and prints X,number,place where it is refused (document 01's 1 to 11), else `accepted`.
#![tactic(auto)]

use std::io;

fn main(rt: HostRuntime) -> io::Result<()> {
    let mut buf = [0u8; 65537];
    let n = streams::read_full(&mut rt.stdin(), &mut buf)?;
    match sheet::read(&buf[..n]) {
        Ok(_) => println!(rt; "accepted"),
        Err(p) => println!(rt; "{p}"),
    }
}

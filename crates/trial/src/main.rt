//! The trial program: plays the script on standard input, and writes its text to standard output.
#![tactic(auto)]

use std::io;
use std::io::{Read, Write};

fn main(rt: HostRuntime) -> io::Result<()> {
    let mut script = Vec::new(rt.alloc());
    rt.stdin().read_to_end(&mut script)?;
    let text = text::play(rt.alloc(), &script)?;
    rt.stdout().write_all(text.as_bytes())
}

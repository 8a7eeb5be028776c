//! Plays scripts in commented hexadecimal from standard input, and writes their texts to standard output.
//!
//! A line that begins with `=` is a heading: the script before it is played, the line is printed as it stands, and
//! another script begins. In other lines two hexadecimal digits make a byte, blanks between bytes are free, and `#`
//! begins a comment. A script with a line that is not hexadecimal is not played.
#![tactic(auto)]

mod hexadecimal;

use hexadecimal::{Fault, decode};
use std::alloc::Global;
use std::io;
use std::io::{Read, Write};

/// A script as it is read: the bytes of its lines so far, unless one of them was not hexadecimal.
// Not an `Option` of the bytes: lines behind a fault are read too, and each would want a `Vec` to be read into.
#[derive(Drop)]
struct Script {
    bytes: Vec<u8>,
    readable: bool,
}

impl Script {
    fn new(heap: Global) -> Script {
        Script {
            bytes: Vec::new(heap),
            readable: true,
        }
    }

    /// Reads a line, and prints its number if it is not hexadecimal.
    fn read(&mut self, rt: &HostRuntime, number: usize, line: &[u8]) -> io::Result<()> {
        // Asked first for speed: a script may have many blank lines.
        if line.is_empty() {
            return Ok(());
        }
        match decode(line, &mut self.bytes) {
            Ok(()) => Ok(()),
            Err(Fault::NoMemory(error)) => Err(error.into()),
            Err(fault) => {
                self.readable = false;
                println!(rt; "line {number}: {fault}")
            }
        }
    }

    /// Plays the script, and prints its text.
    fn play(self, rt: &HostRuntime) -> io::Result<()> {
        if !self.readable {
            return Ok(());
        }
        let text = text::play(rt.alloc(), &self.bytes)?;
        rt.stdout().write_all(text.as_bytes())
    }
}

fn print_heading(rt: &HostRuntime, line: &[u8]) -> io::Result<()> {
    rt.stdout().write_all(line)?;
    rt.stdout().write_all(b"\n")
}

fn main(rt: HostRuntime) -> io::Result<()> {
    let mut input = Vec::new(rt.alloc());
    rt.stdin().read_to_end(&mut input)?;
    let mut script = Script::new(rt.alloc());
    for (number, line) in (1usize..).zip(input.split(|byte| *byte == b'\n')) {
        if line.starts_with(b"=") {
            script.play(&rt)?;
            script = Script::new(rt.alloc());
            print_heading(&rt, line)?;
        } else {
            script.read(&rt, number, line)?;
        }
    }
    script.play(&rt)
}

//! A run to the end of its clock: 4 000 000 000 ticks are granted, and the next is refused.
#![tactic(auto)]

use admission::Accepted;
use dispatch::{Checked, LAST_CLOCK};
use rules::Bottom;
use std::io;

fn main(rt: HostRuntime) -> io::Result<()> {
    let set = Accepted::new();
    let rule = Bottom::arrival();
    // Not `?`: what `main` hands up is what a failed write says, and a refusal is shown.
    let checked = match Checked::check(&set, &rule) {
        Ok(checked) => checked,
        Err(refusal) => return println!(rt; "{refusal}"),
    };
    let mut run = checked.start();
    for clock in 0..LAST_CLOCK {
        if let Err(refusal) = run.tick() {
            return println!(rt; "tick at clock {clock}: {refusal}");
        }
    }
    let clock = run.clock();
    println!(rt; "{clock} ticks were granted")?;
    if let Err(refusal) = run.tick() {
        println!(rt; "tick at clock {clock}: {refusal}")?;
    }
    Ok(())
}

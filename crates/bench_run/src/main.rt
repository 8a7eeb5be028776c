//! A long run of 32 tasks with waits, for timing. The number of ticks stands on standard input; what all calls answered
//! is written as one number, and the time on standard error. `bench/run.c` makes the same calls on a plain dispatcher.
#![tactic(auto)]

use admission::{Accepted, admit};
use dispatch::{Checked, Run};
use model::{Answer, Call, Figures, Refusal};
use rules::{Bottom, OrderRule};
use std::time::Instant;
use tasks::{CAPACITY, Table};

/// The tasks of the run.
fn line() -> Table {
    let mut table = Table::new();
    for k in 0..CAPACITY as u16 {
        let period = 200 + 37 * k;
        let _ = table.add(Figures {
            execution: 1 + k % 4,
            suspension: 1 + k % 7,
            deadline: period,
            period,
        });
    }
    table
}

/// A number for an answer.
// Not a derived hash: the plain dispatcher in C makes the same number of its answers.
fn code(answer: Result<Answer, Refusal>) -> u64 {
    match answer {
        Ok(Answer::Released(clock)) => 1 ^ (u64::from(clock) << 8),
        Ok(Answer::Waits(task)) => 2 ^ (u64::from(task) << 8),
        Ok(Answer::Woken(waited)) => 3 ^ (u64::from(waited) << 8),
        Ok(Answer::Finished(ended)) => {
            4 ^ (u64::from(ended.task) << 8)
                ^ (u64::from(ended.age) << 16)
                ^ (u64::from(ended.given) << 48)
        }
        Ok(Answer::Passed(ticked)) => {
            let ran = u64::from(ticked.ran.unwrap_or(255));
            5 ^ (ran << 8) ^ (u64::from(ticked.ended) << 16) ^ (u64::from(ticked.forced) << 24)
        }
        Err(refusal) => 6 ^ (u64::from(refusal.number()) << 8),
    }
}

fn joined(sum: u64, answer: Result<Answer, Refusal>) -> u64 {
    (sum ^ code(answer)).wrapping_mul(0x100_0000_01B3)
}

/// The calls around one tick.
fn turn<R: OrderRule>(run: &mut Run<'_, R>, tick: u32, sum: u64) -> u64 {
    let mut sum = joined(sum, run.call(Call::Release(tick % 32)));
    if tick % 3 == 0 {
        sum = joined(sum, run.call(Call::Wait));
    }
    if tick % 5 == 0 {
        sum = joined(sum, run.call(Call::Wake(tick / 5 % 32)));
    }
    if tick % 11 == 0 {
        sum = joined(sum, run.call(Call::Finish));
    }
    joined(sum, run.call(Call::Tick))
}

fn main(rt: HostRuntime) -> anyhow::Result<()> {
    let mut word = String::new(rt.alloc());
    rt.read_line(&mut word)?;
    let ticks = word.as_str().trim().parse::<u32>()?;
    let table = line();
    let rule = Bottom::deadline(&table);
    let mut set = Accepted::new();
    admit(&table, &rule, &mut set)?;
    let mut run = Checked::check(&set, &rule)?.start();
    let start = Instant::now(&rt)?;
    let mut sum = 0;
    for tick in 0..ticks {
        sum = turn(&mut run, tick, sum);
    }
    let spent = start.elapsed(&rt)?.as_nanos();
    println!(rt; "{ticks} ticks, answers {sum}")?;
    eprintln!(rt; "{spent} ns")?;
    Ok(())
}

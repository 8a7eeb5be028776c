//! A shift: the admitted line is dispatched, call by call and in one go.
use admission::Accepted;
use dispatch::{Checked, Entry, Run, Totals, hold};
use model::{Answer, Call, Refusal};
use rules::OrderRule;
use std::{fmt, io};

// The camera takes a picture, and other tasks run while it waits for it.
fn picture() -> [Call; 22] {
    [
        Call::Wait,
        Call::Release(4),
        Call::Tick,
        Call::Tick,
        Call::Wait,
        Call::Release(1),
        Call::Tick,
        Call::Tick,
        Call::Tick,
        Call::Wake(4),
        Call::Wake(4),
        Call::Release(0),
        Call::Tick,
        Call::Tick,
        Call::Tick,
        Call::Tick,
        Call::Finish,
        Call::Finish,
        Call::Release(4),
        Call::Release(9),
        Call::Release(0),
        Call::Tick,
    ]
}

/// A call, by its name.
#[derive(Clone, Copy)]
struct Named(Call);

impl fmt::Display for Named {
    fn fmt<W: fmt::Write>(&self, f: &mut fmt::Formatter<W>) -> fmt::Result {
        match self.0 {
            Call::Release(task) => write!(f, "release {task}"),
            Call::Wait => write!(f, "wait"),
            Call::Wake(task) => write!(f, "wake {task}"),
            Call::Finish => write!(f, "finish"),
            Call::Tick => write!(f, "tick"),
        }
    }
}

/// What a call answered, in words.
#[derive(Clone, Copy)]
struct Told(Result<Answer, Refusal>);

impl fmt::Display for Told {
    fn fmt<W: fmt::Write>(&self, f: &mut fmt::Formatter<W>) -> fmt::Result {
        match self.0 {
            Ok(Answer::Released(clock)) => write!(f, "a job is open since {clock}"),
            Ok(Answer::Waits(task)) => write!(f, "task {task} waits"),
            Ok(Answer::Woken(waited)) => write!(f, "it has waited {waited}"),
            Ok(Answer::Finished(end)) => {
                write!(f, "task {} ended with {} ticks given", end.task, end.given)
            }
            Ok(Answer::Passed(tick)) => {
                match tick.ran {
                    Some(task) if tick.ended => write!(f, "task {task} ran and ended")?,
                    Some(task) => write!(f, "task {task} ran")?,
                    None => write!(f, "idle")?,
                }
                match tick.forced {
                    0 => Ok(()),
                    forced => write!(f, ", forced {forced:b}"),
                }
            }
            Err(refusal) => write!(f, "{refusal}"),
        }
    }
}

// The task whose job a call ended, if it ended one.
fn ended(answer: Result<Answer, Refusal>) -> Option<u32> {
    match answer {
        Ok(Answer::Finished(end)) => Some(end.task),
        Ok(Answer::Passed(tick)) if tick.ended => tick.ran,
        _ => None,
    }
}

// The distance of the job that just ended, beside the bound of its task.
fn print_distance<R>(rt: &impl Print, run: &Run<'_, R>, task: u32) -> io::Result<()> {
    let (Ok(bound), Ok(Some(job))) = (run.bound(task), run.latest(task)) else {
        return Ok(());
    };
    let distance = run.clock().saturating_sub(job.release);
    println!(rt; "      its distance is {distance}, the bound {bound}")
}

fn print_totals(rt: &impl Print, totals: Totals) -> io::Result<()> {
    let Totals { clock, open } = totals;
    println!(rt; "  closed at {clock}, open tasks {open:b}")
}

/// Makes the calls one by one, and prints every answer.
pub fn print_run<'s, R: OrderRule>(
    rt: &impl Print,
    set: &'s Accepted,
    rule: &'s R,
) -> io::Result<()> {
    println!(rt; "A picture, call by call:")?;
    // Not `?`: the refusal is part of what is shown, and the program goes on.
    let checked = match Checked::check(set, rule) {
        Ok(checked) => checked,
        Err(refusal) => return println!(rt; "  {refusal}"),
    };
    let mut run = checked.start();
    for call in picture() {
        let clock = run.clock();
        let answer = run.call(call);
        println!(rt; "  {clock:>3} {}: {}", Named(call), Told(answer))?;
        if let Some(task) = ended(answer) {
            print_distance(rt, &run, task)?;
        }
    }
    let ready = run.ready();
    println!(rt; "  ready tasks {ready:b}")?;
    print_totals(rt, run.close())
}

/// Hands the same calls to one call that makes them all, and prints what it hands back.
pub fn print_held<'s, R: OrderRule>(
    rt: &impl Print,
    set: &'s Accepted,
    rule: &'s R,
) -> io::Result<()> {
    println!(rt; "The same calls in one go:")?;
    let mut entries = picture().map(|call| Entry { call, answer: None });
    // Not `?`: the refusal is part of what is shown.
    let totals = match hold(set, rule, &mut entries) {
        Ok(totals) => totals,
        Err(refusal) => return println!(rt; "  {refusal}"),
    };
    for entry in entries {
        if let Some(answer) = entry.answer {
            println!(rt; "  answer: {}", Told(answer))?;
        }
    }
    print_totals(rt, totals)
}

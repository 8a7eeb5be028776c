//! A bottle filling line: its tasks are entered one by one, the table is tested under several order rules, and the
//! admitted line is dispatched.
#![tactic(auto)]

mod line;
mod points;
mod shift;
mod verdicts;

use admission::Accepted;
use line::{Row, rework_rows, rows};
use model::Refusal;
use points::print_points;
use rules::Bottom;
use shift::{print_held, print_run};
use std::io;
use tasks::Table;
use verdicts::{print_verdict, print_verdicts};

/// Enters one row, and prints its number or why it is refused.
fn enter(rt: &impl Print, table: &mut Table, row: &Row) -> io::Result<Result<u32, Refusal>> {
    let entered = table.add(row.figures);
    let name = row.name;
    match entered {
        Ok(number) => println!(rt; "  {name}: task {number}")?,
        Err(refusal) => println!(rt; "  {name}: {refusal}")?,
    }
    Ok(entered)
}

/// Prints the tasks of a table under their names.
fn print_table(rt: &impl Print, table: &Table, names: &[&str]) -> io::Result<()> {
    println!(rt; "  task name                     C     S     D     T")?;
    for (number, (name, figures)) in names.iter().zip(table.as_slice()).enumerate() {
        let c = figures.execution;
        let s = figures.suspension;
        let d = figures.deadline;
        let t = figures.period;
        println!(rt; "  {number:>4} {name:<20} {c:>5} {s:>5} {d:>5} {t:>5}")?;
    }
    Ok(())
}

fn main(rt: HostRuntime) -> io::Result<()> {
    let mut table = Table::new();
    // Not in the table: it keeps figures alone.
    let mut names = Vec::new(rt.alloc());
    println!(rt; "Entering the tasks of a filling line; a tick is a millisecond.")?;
    for row in rows().iter() {
        if enter(&rt, &mut table, row)?.is_ok() {
            names.push(row.name)?;
        }
    }
    let count = table.count();
    println!(rt; "The table has {count} tasks.")?;
    print_table(&rt, &table, names.as_slice())?;
    print_points(&rt, &table)?;
    let mut place = Accepted::new();
    print_verdicts(&rt, &table, &mut place)?;
    let deadline = Bottom::deadline(&table);
    print_run(&rt, &place, &deadline)?;
    print_held(&rt, &place, &deadline)?;
    println!(rt; "Started with another rule:")?;
    print_run(&rt, &place, &Bottom::arrival())?;
    println!(rt; "The rework bench, tested in the place that holds the line:")?;
    let mut bench = Table::new();
    for row in rework_rows().iter() {
        let _ = enter(&rt, &mut bench, row)?;
    }
    let rule = Bottom::deadline(&bench);
    print_verdict(&rt, "deadline", &bench, &rule, &mut place)
}

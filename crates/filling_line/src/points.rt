//! The points of the tasks under the rules that the line compares.
use rules::{Bottom, Figure, OrderRule, Weighted};
use std::io;
use tasks::Table;

fn print_row<R: OrderRule>(rt: &impl Print, label: &str, rule: &R, count: u32) -> io::Result<()> {
    print!(rt; "  {label:<28}")?;
    for task in 0..count {
        let point = rule.point(task);
        print!(rt; " {point:>5}")?;
    }
    println!(rt; "")
}

/// Prints a line for each rule.
pub fn print_points(rt: &impl Print, table: &Table) -> io::Result<()> {
    let count = table.count() as u32;
    let deadline = Bottom::deadline(table);
    println!(rt; "Points of the tasks:")?;
    print_row(rt, "deadline", &deadline, count)?;
    print_row(rt, "arrival", &Bottom::arrival(), count)?;
    print_row(rt, "level", &Bottom::level(table), count)?;
    // Not `?`: what `main` hands up is what a failed write or want of memory says, and a refusal is shown.
    match Weighted::over(table, Figure::Suspension, 1, &deadline) {
        Ok(patient) => print_row(rt, "deadline, S-weight 1", &patient, count),
        Err(refusal) => println!(rt; "  {refusal}"),
    }
}

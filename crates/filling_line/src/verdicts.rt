//! The verdict on a table under the rules that the line compares.
use admission::{Accepted, Admitted, admit};
use rules::{Bottom, Figure, OrderRule, Weighted};
use std::io;
use tasks::Table;

/// Tests a table under a rule, and prints the bounds and offsets or why it is refused.
pub fn print_verdict<R: OrderRule>(
    rt: &impl Print,
    label: &str,
    table: &Table,
    rule: &R,
    place: &mut Accepted,
) -> io::Result<()> {
    if let Err(refusal) = admit(table, rule, place) {
        return println!(rt; "  {label}: {refusal}");
    }
    println!(rt; "  {label}: admitted")?;
    for (task, row) in place.as_slice().iter().enumerate() {
        let Admitted { bound, offset, .. } = *row;
        println!(rt; "    task {task}: every job ends within {bound} ticks (offset {offset})")?;
    }
    Ok(())
}

/// Tests a table under each rule in turn, always in the same place.
pub fn print_verdicts(rt: &impl Print, table: &Table, place: &mut Accepted) -> io::Result<()> {
    println!(rt; "Verdicts:")?;
    let deadline = Bottom::deadline(table);
    print_verdict(rt, "arrival", table, &Bottom::arrival(), place)?;
    print_verdict(rt, "level", table, &Bottom::level(table), place)?;
    // Not `?`: what `main` hands up is what a failed write or want of memory says, and a refusal is shown.
    match Weighted::over(table, Figure::Suspension, 1, &deadline) {
        Ok(patient) => print_verdict(rt, "deadline, S-weight 1", table, &patient, place)?,
        Err(refusal) => println!(rt; "  {refusal}")?,
    }
    print_verdict(rt, "deadline", table, &deadline, place)
}

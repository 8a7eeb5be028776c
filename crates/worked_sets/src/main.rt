//! The worked sets: each is tested in a new place, and again in a place that held a larger set.
#![tactic(auto)]

use admission::{Accepted, admit};
use model::{Figures, Refusal};
use rules::{Bottom, Figure, OrderRule, Weighted};
use std::io;
use tasks::Table;

// A table of the rows that fit.
fn table(rows: &[(u16, u16, u16, u16)]) -> Table {
    let mut table = Table::new();
    for (execution, suspension, deadline, period) in rows.iter().copied() {
        let figures = Figures {
            execution,
            suspension,
            deadline,
            period,
        };
        let _ = table.add(figures);
    }
    table
}

fn print_place(
    rt: &impl Print,
    label: &str,
    verdict: Result<(), Refusal>,
    place: &Accepted,
) -> io::Result<()> {
    print!(rt; "{label}:")?;
    if let Err(refusal) = verdict {
        print!(rt; " {refusal}; the place holds")?;
    }
    for row in place.as_slice() {
        print!(rt; " {} at {}", row.bound, row.offset)?;
    }
    println!(rt; "")
}

/// Tests a table in a new place, and then in a place that holds a larger set.
fn test<R: OrderRule>(
    rt: &impl Print,
    label: &str,
    table: &Table,
    rule: &R,
    larger: &Table,
) -> io::Result<()> {
    let mut place = Accepted::new();
    let verdict = admit(table, rule, &mut place);
    print_place(rt, label, verdict, &place)?;
    let _ = admit(larger, &Bottom::deadline(larger), &mut place);
    let verdict = admit(table, rule, &mut place);
    print_place(rt, "  behind a larger set", verdict, &place)
}

fn test_pair(rt: &impl Print, pair: &Table, larger: &Table) -> io::Result<()> {
    let deadline = Bottom::deadline(pair);
    test(rt, "A, deadline", pair, &deadline, larger)?;
    test(rt, "B, arrival", pair, &Bottom::arrival(), larger)?;
    test(rt, "C, level", pair, &Bottom::level(pair), larger)?;
    // Not `?`: what `main` hands up is what a failed write says, and a refusal is shown.
    match Weighted::over(pair, Figure::Suspension, -1, &deadline) {
        Ok(urgent) => test(rt, "D, deadline with S-weight -1", pair, &urgent, larger),
        Err(refusal) => println!(rt; "{refusal}"),
    }
}

fn main(rt: HostRuntime) -> io::Result<()> {
    let larger = table(&[(1, 0, 9, 9), (1, 0, 12, 12), (2, 1, 30, 30), (1, 0, 40, 40)]);
    let e = table(&[(4, 0, 10, 10), (2, 0, 18, 20)]);
    let f = table(&[(3, 0, 6, 6), (10, 0, 20, 20)]);
    let g = table(&[(2, 3, 5, 9)]);
    let h = table(&[(2, 3, 4, 9)]);
    test_pair(&rt, &table(&[(1, 2, 5, 5), (1, 3, 7, 7)]), &larger)?;
    test(&rt, "E, deadline", &e, &Bottom::deadline(&e), &larger)?;
    test(&rt, "F, deadline", &f, &Bottom::deadline(&f), &larger)?;
    test(&rt, "G, deadline", &g, &Bottom::deadline(&g), &larger)?;
    test(&rt, "H, deadline", &h, &Bottom::deadline(&h), &larger)?;
    test(&rt, "empty", &Table::new(), &Bottom::arrival(), &larger)
}

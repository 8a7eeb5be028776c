//! Runs: every refusal, the edges, and a rule that is really asked.
use crate::sets::{figures, pair};
use admission::{Accepted, admit};
use dispatch::Checked;
use model::{Ended, Refusal, Ticked};
use own_rule::HigherFirst;
use rules::{Bottom, OrderRule};
use std::test::Fail;
use tasks::Table;

fn ticked(ran: Option<u32>, ended: bool, forced: u32) -> Result<Ticked, Refusal> {
    Ok(Ticked { ran, ended, forced })
}

#[test]
fn a_rule_with_other_points_is_refused_and_leaves_both(rt: HostRuntime) -> Result<(), Fail> {
    let table = pair()?;
    let deadline = Bottom::deadline(&table);
    let arrival = Bottom::arrival();
    let mut set = Accepted::new();
    admit(&table, &deadline, &mut set)?;
    assert!(rt; Checked::check(&set, &arrival).is_err());
    assert!(rt; Checked::check(&set, &deadline).is_ok());
    Ok(())
}

#[test]
fn a_new_run_refuses_what_needs_a_job(rt: HostRuntime) -> Result<(), Fail> {
    let table = pair()?;
    let deadline = Bottom::deadline(&table);
    let mut set = Accepted::new();
    admit(&table, &deadline, &mut set)?;
    let mut run = Checked::check(&set, &deadline)?.start();
    assert_eq!(rt; run.finish(), Err(Refusal::NoReadyJob));
    assert_eq!(rt; run.wait(), Err(Refusal::NoReadyJob));
    assert_eq!(rt; run.wake(0), Err(Refusal::NotWaiting));
    for task in [2, 32, 255, u32::MAX] {
        assert_eq!(rt; run.release(task), Err(Refusal::NoSuchTask));
        assert_eq!(rt; run.wake(task), Err(Refusal::NoSuchTask));
        assert!(rt; run.latest(task).is_err());
    }
    assert_eq!(rt; run.clock(), 0);
    assert_eq!(rt; run.tick(), ticked(None, false, 0));
    assert_eq!(rt; run.close().open, 0);
    Ok(())
}

#[test]
fn releases_are_a_period_apart(rt: HostRuntime) -> Result<(), Fail> {
    let table = pair()?;
    let deadline = Bottom::deadline(&table);
    let mut set = Accepted::new();
    admit(&table, &deadline, &mut set)?;
    let mut run = Checked::check(&set, &deadline)?.start();
    assert_eq!(rt; run.release(0), Ok(0));
    for _ in 0..4 {
        assert!(rt; run.tick().is_ok());
    }
    assert_eq!(rt; run.release(0), Err(Refusal::ReleasedTooSoon));
    assert!(rt; run.tick().is_ok());
    assert_eq!(rt; run.release(0), Ok(5));
    Ok(())
}

#[test]
fn waiting_is_counted_and_ends_by_force(rt: HostRuntime) -> Result<(), Fail> {
    let table = pair()?;
    let deadline = Bottom::deadline(&table);
    let mut set = Accepted::new();
    admit(&table, &deadline, &mut set)?;
    let mut run = Checked::check(&set, &deadline)?.start();
    assert_eq!(rt; run.release(0), Ok(0));
    assert_eq!(rt; run.wait(), Ok(0));
    assert_eq!(rt; run.release(1), Ok(0));
    assert_eq!(rt; run.tick(), ticked(Some(1), true, 0));
    assert_eq!(rt; run.tick(), ticked(None, false, 1));
    assert_eq!(rt; run.wait(), Err(Refusal::SuspensionSpent));
    assert_eq!(rt; run.ready(), 1);
    assert_eq!(rt; run.tick(), ticked(Some(0), true, 0));
    assert_eq!(rt; run.close().clock, 3);
    Ok(())
}

#[test]
fn a_wait_without_suspension_is_refused(rt: HostRuntime) -> Result<(), Fail> {
    let mut table = Table::new();
    table.add(figures(2, 0, 5, 5))?;
    let deadline = Bottom::deadline(&table);
    let mut set = Accepted::new();
    admit(&table, &deadline, &mut set)?;
    let mut run = Checked::check(&set, &deadline)?.start();
    assert_eq!(rt; run.release(0), Ok(0));
    assert_eq!(rt; run.wait(), Err(Refusal::SuspensionSpent));
    assert_eq!(rt; run.tick(), ticked(Some(0), false, 0));
    let end = Ended {
        task: 0,
        age: 1,
        given: 1,
    };
    assert_eq!(rt; run.finish(), Ok(end));
    Ok(())
}

fn first_to_run<'s, R: OrderRule>(set: &'s Accepted, rule: &'s R) -> Result<Option<u32>, Refusal> {
    let mut run = Checked::check(set, rule)?.start();
    run.release(0)?;
    run.release(1)?;
    Ok(run.tick()?.ran)
}

#[test]
fn the_dispatcher_asks_its_rule(rt: HostRuntime) -> Result<(), Fail> {
    let mut table = Table::new();
    table.add(figures(1, 0, 9, 9))?;
    table.add(figures(1, 0, 9, 9))?;
    let deadline = Bottom::deadline(&table);
    let reversed = HigherFirst::new(&[9, 9]);
    let mut set = Accepted::new();
    admit(&table, &deadline, &mut set)?;
    assert_eq!(rt; first_to_run(&set, &deadline)?, Some(0));
    assert_eq!(rt; first_to_run(&set, &reversed)?, Some(1));
    Ok(())
}

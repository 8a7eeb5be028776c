//! Points and order under all rules and layers.
use crate::sets::pair;
use model::JobId;
use own_rule::HigherFirst;
use rules::{Bottom, Figure, OrderRule, Weighted};
use std::process::Abort;
use std::test::Fail;

fn check_points<R: OrderRule>(rt: &impl Abort, rule: &R, first: i32, second: i32) {
    assert_eq!(rt; rule.point(0), first);
    assert_eq!(rt; rule.point(1), second);
    assert_eq!(rt; rule.point(2), 0);
    assert_eq!(rt; rule.point(32), 0);
    assert_eq!(rt; rule.point(u32::MAX), 0);
}

#[test]
fn the_points_of_two_tasks(rt: HostRuntime) -> Result<(), Fail> {
    let table = pair()?;
    check_points(&rt, &Bottom::deadline(&table), 5, 7);
    check_points(&rt, &Bottom::arrival(), 0, 0);
    check_points(&rt, &Bottom::level(&table), 5, 12);
    Ok(())
}

#[test]
fn layers_stack_in_both_orders(rt: HostRuntime) -> Result<(), Fail> {
    let table = pair()?;
    let deadline = Bottom::deadline(&table);
    let c = Weighted::over(&table, Figure::Execution, 3, &deadline)?;
    let s = Weighted::over(&table, Figure::Suspension, -1, &deadline)?;
    check_points(&rt, &c, 8, 10);
    check_points(&rt, &s, 3, 4);
    check_points(
        &rt,
        &Weighted::over(&table, Figure::Suspension, -1, &c)?,
        6,
        7,
    );
    check_points(
        &rt,
        &Weighted::over(&table, Figure::Execution, 3, &s)?,
        6,
        7,
    );
    Ok(())
}

#[test]
fn a_point_stops_at_the_ends_of_the_range(rt: HostRuntime) -> Result<(), Fail> {
    let table = pair()?;
    let high = HigherFirst::new(&[999_999_990, -999_999_999]);
    check_points(
        &rt,
        &Weighted::over(&table, Figure::Execution, 16, &high)?,
        1_000_000_000,
        -999_999_983,
    );
    check_points(
        &rt,
        &Weighted::over(&table, Figure::Suspension, -16, &high)?,
        999_999_958,
        -1_000_000_000,
    );
    Ok(())
}

#[test]
fn weights_are_from_minus_16_to_16(rt: HostRuntime) -> Result<(), Fail> {
    let table = pair()?;
    let deadline = Bottom::deadline(&table);
    assert!(rt; Weighted::over(&table, Figure::Execution, 16, &deadline).is_ok());
    assert!(rt; Weighted::over(&table, Figure::Suspension, -16, &deadline).is_ok());
    for weight in [17, -17, i32::MAX, i32::MIN] {
        assert!(rt; Weighted::over(&table, Figure::Execution, weight, &deadline).is_err());
        assert!(rt; Weighted::over(&table, Figure::Suspension, weight, &deadline).is_err());
    }
    Ok(())
}

fn check_before<R: OrderRule>(rt: &impl Abort, rule: &R, a: JobId, b: JobId) {
    assert!(rt; rule.goes_before(a, b));
    assert!(rt; !rule.goes_before(b, a));
    assert!(rt; !rule.goes_before(a, a));
}

fn job(task: u32, release: u32) -> JobId {
    JobId { task, release }
}

#[test]
fn ties_go_to_the_lower_number_and_in_the_sample_to_the_higher(
    rt: HostRuntime,
) -> Result<(), Fail> {
    let table = pair()?;
    let deadline = Bottom::deadline(&table);
    check_before(&rt, &deadline, job(0, 2), job(1, 0));
    check_before(&rt, &deadline, job(1, 0), job(0, 3));
    check_before(&rt, &deadline, job(0, 2), job(9, 7));
    check_before(&rt, &deadline, job(1, 0), job(9, 7));
    let sample = HigherFirst::new(&[5, 7]);
    check_before(&rt, &sample, job(1, 0), job(0, 2));
    check_before(&rt, &sample, job(9, 7), job(1, 0));
    check_before(&rt, &sample, job(9, 7), job(0, 2));
    check_before(
        &rt,
        &Weighted::over(&table, Figure::Execution, 1, &deadline)?,
        job(0, 2),
        job(1, 0),
    );
    check_before(
        &rt,
        &Weighted::over(&table, Figure::Execution, 1, &sample)?,
        job(1, 0),
        job(0, 2),
    );
    Ok(())
}

#[test]
fn the_last_clock_orders_like_the_first(rt: HostRuntime) {
    let high = HigherFirst::new(&[1_000_000_000, -1_000_000_000]);
    check_before(&rt, &high, job(1, 4_000_000_000), job(0, 4_000_000_000));
    check_before(&rt, &high, job(0, 0), job(1, 4_000_000_000));
}

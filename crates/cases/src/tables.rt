//! The edges of the open table.
use model::{Figures, Refusal};
use std::test::Fail;
use tasks::Table;

const LARGEST: Figures = Figures {
    execution: 65535,
    suspension: 65535,
    deadline: 65535,
    period: 65535,
};

fn due(deadline: u16, period: u16) -> Figures {
    Figures {
        execution: 1,
        suspension: 0,
        deadline,
        period,
    }
}

#[test]
fn the_32nd_task_is_taken_and_the_33rd_refused(rt: HostRuntime) -> Result<(), Fail> {
    let mut table = Table::new();
    for number in 0..32 {
        assert_eq!(rt; table.add(LARGEST)?, number);
    }
    assert_eq!(rt; table.add(LARGEST), Err(Refusal::TableFull));
    assert_eq!(rt; table.count(), 32);
    Ok(())
}

#[test]
fn the_deadline_is_from_1_to_the_period(rt: HostRuntime) {
    let mut table = Table::new();
    assert_eq!(rt; table.add(due(5, 5)), Ok(0));
    assert_eq!(rt; table.add(due(6, 5)), Err(Refusal::DeadlineOutsidePeriod));
    assert_eq!(rt; table.add(due(0, 5)), Err(Refusal::DeadlineOutsidePeriod));
    assert_eq!(rt; table.add(due(1, 65535)), Ok(1));
}

#[test]
fn refusals_print_their_number_and_reason(rt: HostRuntime) -> Result<(), Fail> {
    let text = format!(in rt.alloc(); "{}", Refusal::LogFull)?;
    assert_eq!(rt; text.as_str(), "refused 12: the log is full");
    Ok(())
}

//! The tasks that several examples are about.
use model::{Figures, Refusal};
use tasks::Table;

/// Figures by C, S, D and T.
pub(crate) fn figures(execution: u16, suspension: u16, deadline: u16, period: u16) -> Figures {
    Figures {
        execution,
        suspension,
        deadline,
        period,
    }
}

/// Two tasks: 1, 2, 5, 5 and 1, 3, 7, 7.
pub(crate) fn pair() -> Result<Table, Refusal> {
    let mut table = Table::new();
    table.add(figures(1, 2, 5, 5))?;
    table.add(figures(1, 3, 7, 7))?;
    Ok(table)
}

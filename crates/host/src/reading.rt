//! The table's bytes.
ghost use Rattle.host.specs.Entered.{Entered};
ghost use Rattle.host.specs.Rows.{rows};

use model::{Figures, Refusal};
use tasks::{CAPACITY, Table};

/// The bytes of a task: four figures.
pub(crate) const ROW: usize = 8;

/// The table that the bytes describe. Refused, in this order: there are more than 32 tasks; for one task after the
/// other, C is 0, D is 0 or above T.
pub(crate) fn enter(bytes: &[u8]) -> Result<Table, Refusal>
    ensures answer { Entered (rows bytes.now) result }
{
    let (rows, _) = bytes.as_chunks::<ROW>();
    if rows.len() > CAPACITY {
        return Err(Refusal::TableFull);
    }
    let mut table = Table::new();
    for row in rows {
        table.add(Figures::from(*row))?;
    }
    Ok(table)
}

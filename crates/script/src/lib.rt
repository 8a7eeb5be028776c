//! Scripts: their commands, and the steps that carry them out. Nothing here allocates or prints.
#![tactic(auto)]

mod command;
mod law;
mod reader;
mod records;
mod session;
mod setup;

pub use command::Command;
pub use law::record_law;
pub use reader::Reader;
pub use records::{Cause, EndRecord, Lost, NO_END, NO_STRETCH, RECORDS, Row, Stretch, Turn};
pub use session::{Closed, Recording, Report, Session};
pub use setup::{Entered, Setup};

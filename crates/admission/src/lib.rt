//! The admission test: yes exactly when bounds on the response of every task exist, and the smallest of them.
#![tactic(auto)]

mod accepted;
mod law;
mod rounds;
mod search;
mod total;
mod verdict;

pub use accepted::{Accepted, Admitted};
pub use law::verdicts_exist;
pub use verdict::admit;

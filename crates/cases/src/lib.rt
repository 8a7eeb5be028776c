//! Examples that are run, and compared with what they should give.
#![tactic(auto)]

#[cfg(test)]
mod order_rules;
#[cfg(test)]
mod runs;
#[cfg(test)]
mod sets;
#[cfg(test)]
mod tables;

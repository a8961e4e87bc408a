//! Tests of the crates below that of one host: what no clause says, worked rows, and what reading
//! and finding cost.
#![tactic(auto)]

#[cfg(test)]
mod checks;
#[cfg(test)]
mod limits;
#[cfg(test)]
mod logs;
#[cfg(test)]
mod responses;
#[cfg(test)]
mod urls;

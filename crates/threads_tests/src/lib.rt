//! Tests of shared caches, and of what threads do over them: exchanges at desks, runs of jobs, and
//! reports.
#![tactic(auto)]

#[cfg(test)]
mod caches;
#[cfg(test)]
mod checks;
#[cfg(test)]
mod desks;
#[cfg(test)]
mod drivers;
#[cfg(test)]
mod making;
#[cfg(test)]
mod reports;

//! Tests that pass whichever allocation fails, of shared caches and of what threads do over them: a
//! call that is out of memory says so, changes nothing, and succeeds if it comes again.
//! `tools/hostile` refuses each of their allocations.
#![tactic(auto)]

#[cfg(test)]
mod checks;
#[cfg(test)]
mod making;
#[cfg(test)]
mod peers;
#[cfg(test)]
mod reports;
#[cfg(test)]
mod runs;
#[cfg(test)]
mod shared_caches;
#[cfg(test)]
mod thread_desk;

//! Tests that pass whichever allocation fails, of the libraries that one thread uses: a call that
//! is out of memory says so, changes nothing, and succeeds if it comes again. `tools/hostile`
//! refuses each of their allocations.
#![tactic(auto)]

#[cfg(test)]
mod checks;
#[cfg(test)]
mod cost;
#[cfg(test)]
mod desk;
#[cfg(test)]
mod hosts;
#[cfg(test)]
mod limits;
#[cfg(test)]
mod logs;
#[cfg(test)]
mod pool_desk;
#[cfg(test)]
mod pools;
#[cfg(test)]
mod responses;
#[cfg(test)]
mod transfers;
#[cfg(test)]
mod urls;

//! Tests of `bundle`: what no clause says.
#![tactic(auto)]

#[cfg(test)]
mod at_once;
#[cfg(test)]
mod budgets;
#[cfg(test)]
mod calls;
#[cfg(test)]
mod checks;
#[cfg(test)]
mod contended;
#[cfg(test)]
mod cuts;
#[cfg(test)]
mod desk;
#[cfg(test)]
mod drops;
#[cfg(test)]
mod first_hosts;
#[cfg(test)]
mod keeper;
#[cfg(test)]
mod limits;
#[cfg(test)]
mod passes;

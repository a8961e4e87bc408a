//! Tests of `exchange`, over wires and a cache in memory: what no clause says.
#![tactic(auto)]

#[cfg(test)]
mod cancels;
#[cfg(test)]
mod checks;
#[cfg(test)]
mod closes;
#[cfg(test)]
mod dials;
#[cfg(test)]
mod drawn;
#[cfg(test)]
mod driven;
#[cfg(test)]
mod driving;
#[cfg(test)]
mod example;
#[cfg(test)]
mod exchanges;
#[cfg(test)]
mod loops;
#[cfg(test)]
mod phases;
#[cfg(test)]
mod places;
#[cfg(test)]
mod requests;
#[cfg(test)]
mod retries;
#[cfg(test)]
mod rows;
#[cfg(test)]
mod runners;
#[cfg(test)]
mod thousand;

//! Tests of `socket`, over connections of this machine to itself: what no clause says.
#![tactic(auto)]

#[cfg(test)]
mod addresses;
#[cfg(test)]
mod checks;
#[cfg(test)]
mod clock;
#[cfg(test)]
mod descriptors;
#[cfg(test)]
mod leases;
#[cfg(test)]
mod peer;
#[cfg(test)]
mod readiness;
#[cfg(test)]
mod requests;
#[cfg(test)]
mod servers;

//! A call of each public function that no other crate calls that each gate proves: so each
//! precondition has a caller that meets it. `tools/callers` lists the functions without one.
#![tactic(auto)]

#[cfg(test)]
mod caches;
#[cfg(test)]
mod checks;
#[cfg(test)]
mod hosts;
#[cfg(test)]
mod networks;
#[cfg(test)]
mod scripts;
#[cfg(test)]
mod tables;
#[cfg(test)]
mod transfers;

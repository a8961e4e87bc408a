//! Tests of `cache`: what no clause says, worked rows, and what calls cost.
#![tactic(auto)]

#[cfg(test)]
mod as_cache;
#[cfg(test)]
mod calls;
#[cfg(test)]
mod checks;
#[cfg(test)]
mod cost;
#[cfg(test)]
mod cuts;
#[cfg(test)]
mod desk;
#[cfg(test)]
mod drawn;
#[cfg(test)]
mod example;
#[cfg(test)]
mod oldest_of_all;
#[cfg(test)]
mod slots;

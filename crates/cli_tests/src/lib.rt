//! Tests of `cli`: what no transcript and no clause shows.
#![tactic(auto)]

#[cfg(test)]
mod audits;
#[cfg(test)]
mod checks;
#[cfg(test)]
mod crawl_rows;
#[cfg(test)]
mod crawl_sockets;
#[cfg(test)]
mod crawlers;
#[cfg(test)]
mod get;
#[cfg(test)]
mod limits;
#[cfg(test)]
mod load_rows;
#[cfg(test)]
mod load_sockets;
#[cfg(test)]
mod loads;
#[cfg(test)]
mod machine;
#[cfg(test)]
mod name_threads;
#[cfg(test)]
mod networks;
#[cfg(test)]
mod running;
#[cfg(test)]
mod script_streams;
#[cfg(test)]
mod words;

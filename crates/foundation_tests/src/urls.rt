//! Tests of `conn_key`: targets, sites and places of hosts, and what finding a site costs.

mod places;
mod sites;
mod targets;

//! Tests of `cache_report`: the bytes of reports, and the report of a cache that was gathered.

mod gathering;
mod rows;

//! Tests of pools with slots, of the tables of slots and of the readers beside them, and of tokens.

mod calls;
mod readers;
mod tables;

//! Tests of `persistence`: facts, random responses in pieces, readers that are cleared, and what
//! reading costs. Rows of responses are in `tests/responses.rows`.

mod cost;
mod drawn;
mod facts;
mod pieces;

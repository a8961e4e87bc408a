//! What a seat knows of its draws, the rule of the word, and what each kind of step tells its seat.

use atomic_table::{Join, Play, Split, TableRule};
use std::collections::LinkedList;

/// What a seat of a claim knows. No value of it is made.
pub struct Drawing {
    /// Its share of a whole of 65,536.
    pub share: u64,
    /// How many jobs there are.
    pub jobs: u64,
    /// The numbers of the jobs that it drew, in this order.
    pub drawn: LinkedList<u64>,
    /// How many numbers past the jobs it drew.
    pub past: u64,
}

/// The rule of the word.
pub struct ClaimRule;

impl TableRule<(), Drawing, u64> for ClaimRule {
    ghost use Rattle.run_loop.specs.Rule.{KeepsClaim, first_drawing};

    ghost holds = { KeepsClaim };

    ghost first = { first_drawing };
}

/// An addition of one, which draws the number found.
pub struct Takes;

impl Play<(), Drawing> for Takes {
    ghost use Rattle.run_loop.specs.Rule.{DrawsNumber};

    ghost then = { λ _. DrawsNumber };
}

/// A load by the seat that has the whole share.
pub struct Reads;

impl Play<(), Drawing> for Reads {
    ghost use Rattle.run_loop.specs.Rule.{ReadsAll};

    ghost then = { λ _. ReadsAll };
}

/// A new seat gets one unit of share.
pub struct Parts;

impl Split<Drawing> for Parts {
    ghost use Rattle.run_loop.specs.Rule.{less_one_unit, one_unit};

    ghost left = { less_one_unit };

    ghost right = { one_unit };
}

/// Two seats become one.
pub struct Joins;

impl Join<Drawing> for Joins {
    ghost use Rattle.run_loop.specs.Rule.{both_drew, no_drawing};

    ghost both = { both_drew };

    ghost spent = { no_drawing };
}

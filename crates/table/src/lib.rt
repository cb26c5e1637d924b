// The format of a table: from bytes to arrays, or the first fault in reading order.
#![tactic(auto)]

pub mod fields; // a number within its range
pub mod atoms;
pub mod clauses;
pub mod header;
pub mod tables; // the whole table

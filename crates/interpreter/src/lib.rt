// The line protocol over a current table and a current record: a line in, an answer out. The programs share it.
#![tactic(auto)]

pub mod desk; // what is current, and the answer to a line
mod looks; // the commands that change nothing
mod records; // the commands that move the record on
mod tables; // the commands that set the table

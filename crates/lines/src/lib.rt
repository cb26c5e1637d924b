// The words, numbers and bytes of the line protocol: read from a line, and written into an answer.
#![tactic(auto)]

pub mod words; // the words of a line
pub mod decimal; // decimal numbers, read and written
pub mod hex; // bytes in hex, read and written
pub mod text; // bytes put into an answer

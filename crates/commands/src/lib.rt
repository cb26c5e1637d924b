// A line of the protocol as a command, with its numbers and bytes, and answers in words.
#![tactic(auto)]

pub mod command; // which command a line is
pub mod fault; // what is wrong with a line
pub mod number; // the numbers of a command
pub mod position; // the position and the choices of a model command
pub mod reply; // answers in words

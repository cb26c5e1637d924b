// What a game is and what it means: definitions and their laws, and the numbers of a game that are kept apart.
#![tactic(auto)]

pub mod arrays; // a game in arrays of numbers
pub mod kinds; // the kinds of atoms

// "Seat numbers, move numbers, fluent numbers and atom numbers are kept apart throughout: a mixed-up pair once cost us a release."
#[derive(Clone, Copy)]
pub struct Seat(pub u16);

#[derive(Clone, Copy)]
pub struct Move(pub u16);

#[derive(Clone, Copy)]
pub struct Fluent(pub u16);

#[derive(Clone, Copy)]
pub struct Atom(pub u16);

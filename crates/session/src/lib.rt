// The session record, by value: "one thing that each call moves on; it is never two halves that may disagree".
#![tactic(auto)]

pub mod shape; // which records are well shaped
pub mod bytes; // the record as 2,580 bytes, and back

// "It holds the position, the moves chosen this round, the last round's percepts and the round number (0 to 65,535)."
#[derive(Clone, Copy)]
pub struct Session {
    pub position: [u8; 512], // a flag for each fluent
    pub choices: [u16; 8], // for each seat 0 for none, or one more than the move
    pub percepts: [u8; 2048], // a flag for each seat * 256 + percept
    pub round: u32,
}

// What each call answers: definitions by cases in the order of the page's tests, and that they are the published semantics.
#![tactic(auto)]

use refusals::Refusal;
use session::Session;

// No `Result` in any of the four, though each has a refusal beside a value: a refusal hands the value back too. The definitions in specs/Calls.antt say which, and
// `refused_keep` (proofs/Keeping.antt) holds it of every call.

// What the claim call answers: `claim` of a refused table is 0.
#[derive(Clone, Copy)]
pub struct Claimed {
    pub refusal: Refusal,
    pub claim: u16,
}

// What open, offer and play answer: the refusal, and the record that the session goes on with. `offer` and `play`: "the record is the one given";
// `open_game`: "a blank record".
#[derive(Clone, Copy)]
pub struct Moved {
    pub refusal: Refusal,
    pub session: Session,
}

// What the message call answers beside the lent room: `message` with a refusal has the length 0.
#[derive(Clone, Copy)]
pub struct Sent {
    pub refusal: Refusal,
    pub length: usize,
}

// "(the call answers 1, else 0)", and `hidden_from` with a refusal 0.
#[derive(Clone, Copy)]
pub struct Looked {
    pub refusal: Refusal,
    pub hidden: u8,
}

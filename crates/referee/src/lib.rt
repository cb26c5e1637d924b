// The calls of the referee. Each tests the table first, then the record or position, then what the page lists; nothing is kept between calls.
// The check answers the refusal alone, and the model call the refusal and the lent room.
#![tactic(auto)]

ghost use Rattle.std.specs.Prelude.{◌≡◌};
ghost use Rattle.rules.specs.Judged.{judge};
ghost use Rattle.calls.specs.Calls.{claim, open_game, offer, play, message};
ghost use Rattle.calls.specs.Promises.{CheckPromise, HiddenPromise, ModelPromise};

use answers::looks::hidden_fit;
use answers::moves::offer_fit;
use answers::opens::open_fit;
use answers::plays::play_fit;
use answers::tells::{message_fit, model_fit};
use calls::{Claimed, Looked, Moved, Sent};
use gdl::{Move, Seat};
use refusals::Refusal;
use session::Session;
use session::bytes::blank_session;
use verdict::{consult, examine, nothing_learnt, trace};

// "check": the verdict on a table.
pub fn check(table: &[u8]) -> Refusal
    ensures { CheckPromise table.now result }
{
    match examine(table) {
        Err(broken) => broken,
        Ok(_) => Refusal::Success,
    }
}

// "The claim is handed out on request." Nothing else depends on it.
pub fn claim(table: &[u8]) -> Claimed
    ensures { result ≡ claim (judge table.now) }
{
    match examine(table) {
        Err(refusal) => Claimed { refusal, claim: 0 },
        Ok(header) => Claimed {
            refusal: Refusal::Success,
            claim: header.players.claim,
        },
    }
}

// "Open starts at round 0 without choices or percepts."
pub fn open_game(table: &[u8]) -> Moved
    ensures { result ≡ open_game (judge table.now) }
{
    let mut learnt = nothing_learnt();
    match consult(table, &[0; 512], &[0; 8], &mut learnt) {
        Err(refusal) => Moved {
            refusal,
            session: blank_session(),
        },
        Ok(()) => open_fit(&learnt),
    }
}

// "Offer stores a legal move for a seat."
pub fn offer(table: &[u8], session: Session, seat: Seat, choice: Move) -> Moved
    ensures { result ≡ offer (judge table.now) session seat.0 choice.0 }
{
    let mut learnt = nothing_learnt();
    match consult(table, &session.position, &[0; 8], &mut learnt) {
        Err(refusal) => Moved { refusal, session },
        Ok(()) => offer_fit(&learnt, session, seat, choice),
    }
}

// "A move of any seat is hidden from the first seat (the call answers 1, else 0)": the asking seat, the moving seat, its move.
pub fn hidden(table: &[u8], asking: Seat, moving: Seat, choice: Move) -> Looked
    ensures { HiddenPromise (judge table.now) asking.0 moving.0 choice.0 result }
{
    let mut learnt = nothing_learnt();
    match trace(table, asking.0, &mut learnt) {
        Err(refusal) => Looked { refusal, hidden: 0 },
        Ok(()) => hidden_fit(&learnt, asking, moving, choice),
    }
}

// The model call: "one flag for each atom, 0 or 1, into the first A places of lent room; later places stay".
pub fn model(table: &[u8], position: [u8; 512], choices: [u16; 8], room: &mut [u8]) -> Refusal
    ensures { ModelPromise (judge table.now) position choices room.old (result, room.new) }
{
    let mut learnt = nothing_learnt();
    match consult(table, &position, &choices, &mut learnt) {
        Err(refusal) => refusal,
        Ok(()) => model_fit(&learnt, position, choices, room),
    }
}

// The next position, once every seat has chosen.
pub fn play(table: &[u8], session: Session) -> Moved
    ensures { result ≡ play (judge table.now) session }
{
    let mut learnt = nothing_learnt();
    match consult(table, &session.position, &session.choices, &mut learnt) {
        Err(refusal) => Moved { refusal, session },
        Ok(()) => play_fit(&learnt, session),
    }
}

// The message of a seat, in house numbers, into lent room.
pub fn message(table: &[u8], session: Session, seat: Seat, room: &mut [u8]) -> Sent
    ensures { (result, room.new) ≡ message (judge table.now) session seat.0 room.old }
{
    let mut learnt = nothing_learnt();
    match consult(table, &session.position, &[0; 8], &mut learnt) {
        Err(refusal) => Sent { refusal, length: 0 },
        Ok(()) => message_fit(&learnt, session, seat, room),
    }
}

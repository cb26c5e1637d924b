// Message and model, on an accepted table.
ghost use Rattle.std.specs.Prelude.{◌≡◌};
ghost use Rattle.gdl.specs.Game.{Game};
ghost use Rattle.gdl.specs.Flags.{blank};
ghost use Rattle.gdl.specs.Computed.{model};
ghost use Rattle.rules.specs.Accepted.{Accepted};
ghost use Rattle.rules.specs.Verdict.{fit};
ghost use Rattle.verdict.specs.Consulted.{found, found_in};
ghost use Rattle.calls.specs.Calls.{truth, message};
ghost use Rattle.answers.specs.Asked.{Asked};
ghost use Rattle.answers.specs.Outcome.{sent_from};

use crate::positions::limits_of;
use crate::shared::within;
use calls::Sent;
use gdl::Seat;
use gdl::kinds::Kind;
use message::{Sheet, write_message};
use refusals::Refusal;
use session::Session;
use session::shape::{choices_fit, position_fits, shaped};
use verdict::{Learnt, marks_in};

// "model 14", after 21.
pub fn model_fit(
    learnt: &Learnt,
    position: [u8; 512],
    choices: [u16; 8],
    room: &mut [u8],
) -> Refusal
    requires { Asked (found learnt.now) position choices }
    ensures { (G : Game) → Accepted G → found learnt.now ≡ found_in G (model G position choices) → (result, room.new) ≡ truth (fit G) position choices room.old }
{
    let limits = limits_of(learnt.header);
    if !position_fits(&position, limits.fluents)
        || !choices_fit(&choices, limits.seats, limits.moves)
    {
        return Refusal::BadShape;
    }
    let atoms = usize::from(learnt.header.sizes.atoms);
    if room.len() < atoms {
        return Refusal::RoomTooShort;
    }
    room[0..atoms].copy_from_slice(&learnt.flags[0..atoms]);
    Refusal::Success
}

// The length of the message, which is written into the room.
fn told(learnt: &Learnt, session: Session, seat: Seat, room: &mut [u8]) -> Result<usize, Refusal>
    requires { Asked (found learnt.now) session.position (blank 8) }
    ensures { (G : Game) → Accepted G → found learnt.now ≡ found_in G (model G session.position (blank 8)) → (sent_from result, room.new) ≡ message (fit G) session seat.0 room.old }
{
    let limits = limits_of(learnt.header);
    if !shaped(session, limits) {
        return Err(Refusal::BadShape);
    }
    within(seat.0, limits.seats, Refusal::NoSuchSeat)?;
    if room.len() < 1024 {
        return Err(Refusal::RoomTooShort);
    }
    let ends = marks_in(learnt, Kind::Terminal, 1);
    let legal = marks_in(learnt, Kind::Legal, 256);
    let goals = marks_in(learnt, Kind::Goal, 256);
    let sheet = Sheet {
        seat: seat.0,
        round: session.round as u16,
        over: ends[0] == 1,
        percepts: limits.percepts,
        moves: limits.moves,
    };
    Ok(write_message(room, sheet, &session.percepts, &legal, &goals))
}

// "message 15, 14", after 21.
pub fn message_fit(learnt: &Learnt, session: Session, seat: Seat, room: &mut [u8]) -> Sent
    requires { Asked (found learnt.now) session.position (blank 8) }
    ensures { (G : Game) → Accepted G → found learnt.now ≡ found_in G (model G session.position (blank 8)) → (result, room.new) ≡ message (fit G) session seat.0 room.old }
{
    match told(learnt, session, seat, room) {
        Ok(length) => Sent {
            refusal: Refusal::Success,
            length,
        },
        Err(refusal) => Sent { refusal, length: 0 },
    }
}

// Offer, on an accepted table.
ghost use Rattle.std.specs.Prelude.{◌≡◌};
ghost use Rattle.gdl.specs.Game.{Game};
ghost use Rattle.gdl.specs.Flags.{blank};
ghost use Rattle.gdl.specs.Computed.{model};
ghost use Rattle.rules.specs.Accepted.{Accepted};
ghost use Rattle.rules.specs.Verdict.{fit};
ghost use Rattle.verdict.specs.Consulted.{found, found_in};
ghost use Rattle.calls.specs.Calls.{offer};
ghost use Rattle.answers.specs.Asked.{Asked};
ghost use Rattle.answers.specs.Outcome.{moved_from};

use crate::shared::{going, moved_from, within};
use calls::Moved;
use gdl::kinds::Kind;
use gdl::{Move, Seat};
use refusals::Refusal;
use session::Session;
use verdict::{Learnt, marks_in};

// The record with the choice stored.
fn offered(learnt: &Learnt, session: Session, seat: Seat, choice: Move) -> Result<Session, Refusal>
    requires { Asked (found learnt.now) session.position (blank 8) }
    ensures { (G : Game) → Accepted G → found learnt.now ≡ found_in G (model G session.position (blank 8)) → moved_from session result ≡ offer (fit G) session seat.0 choice.0 }
{
    let limits = going(learnt, session)?;
    let row = within(seat.0, limits.seats, Refusal::NoSuchSeat)?;
    let column = within(choice.0, limits.moves, Refusal::NoSuchMove)?;
    let mut choices = session.choices;
    if choices[row] != 0 {
        return Err(Refusal::AlreadyChosen);
    }
    let legal = marks_in(learnt, Kind::Legal, 256);
    if legal[row * 256 + column] != 1 {
        return Err(Refusal::NotLegal(0));
    }
    choices[row] = choice.0 + 1;
    Ok(Session { choices, ..session })
}

// "offer 19, 15, 16, 17, 18", after 21.
pub fn offer_fit(learnt: &Learnt, session: Session, seat: Seat, choice: Move) -> Moved
    requires { Asked (found learnt.now) session.position (blank 8) }
    ensures { (G : Game) → Accepted G → found learnt.now ≡ found_in G (model G session.position (blank 8)) → result ≡ offer (fit G) session seat.0 choice.0 }
{
    moved_from(session, offered(learnt, session, seat, choice))
}

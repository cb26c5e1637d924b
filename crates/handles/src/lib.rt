// Offer and play over the session itself: "The session record is one thing that each call moves on". Each is thin above the call that takes the record by
// value, so that a refused call leaves the record as it was.
#![tactic(auto)]

ghost use Rattle.std.specs.Prelude.{◌≡◌};
ghost use Rattle.rules.specs.Judged.{judge};
ghost use Rattle.calls.specs.Calls.{offer, play};
ghost use Rattle.handles.specs.Moving.{leaves};

use gdl::{Move, Seat};
use refusals::Refusal;
use session::Session;

// "Offer stores a legal move for a seat."
pub fn offer(table: &[u8], session: &mut Session, seat: Seat, choice: Move) -> Refusal
    ensures { (result, session.new) ≡ leaves (offer (judge table.now) session.old seat.0 choice.0) }
{
    let moved = referee::offer(table, *session, seat, choice);
    *session = moved.session;
    moved.refusal
}

// The next position, once every seat has chosen.
pub fn play(table: &[u8], session: &mut Session) -> Refusal
    ensures { (result, session.new) ≡ leaves (play (judge table.now) session.old) }
{
    let moved = referee::play(table, *session);
    *session = moved.session;
    moved.refusal
}

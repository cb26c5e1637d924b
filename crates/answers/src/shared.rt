// The tests that several calls make, and what offer answers of its outcome.
ghost use Rattle.std.specs.Prelude.{◌≡◌, List, ℕ};
ghost use Rattle.gdl.specs.Game.{Game};
ghost use Rattle.gdl.specs.Computed.{model};
ghost use Rattle.rules.specs.Accepted.{Accepted};
ghost use Rattle.verdict.specs.Consulted.{found, found_in, Fit};
ghost use Rattle.answers.specs.Outcome.{going, within, moved_from};

use crate::positions::limits_of;
use calls::Moved;
use gdl::kinds::Kind;
use refusals::Refusal;
use session::Session;
use session::shape::{Limits, shaped};
use verdict::{Learnt, marks_in};

// 21 and 19, which offer and play begin with: the limits of the table, where neither strikes.
pub fn going(learnt: &Learnt, session: Session) -> Result<Limits, Refusal>
    requires { Fit (found learnt.now) }
    ensures { (G : Game) (choices : List ℕ) → Accepted G → found learnt.now ≡ found_in G (model G session.position choices) → result ≡ going G session }
{
    let limits = limits_of(learnt.header);
    if !shaped(session, limits) {
        return Err(Refusal::BadShape);
    }
    let ends = marks_in(learnt, Kind::Terminal, 1);
    if ends[0] == 1 {
        return Err(Refusal::GameOver);
    }
    Ok(limits)
}

// The number of a seat or a move as a place; or the refusal, where the table has none of that number.
pub fn within(number: u16, end: u16, refusal: Refusal) -> Result<usize, Refusal>
    ensures { result ≡ within number end refusal }
{
    if end <= number {
        return Err(refusal);
    }
    Ok(usize::from(number))
}

// The session that a call goes on with; or a refusal, and the session as it came.
pub fn moved_from(session: Session, outcome: Result<Session, Refusal>) -> Moved
    ensures { result ≡ moved_from session outcome }
{
    match outcome {
        Ok(session) => Moved {
            refusal: Refusal::Success,
            session,
        },
        Err(refusal) => Moved { refusal, session },
    }
}

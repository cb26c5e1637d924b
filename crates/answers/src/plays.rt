// Play, on an accepted table.
ghost use Rattle.std.specs.Prelude.{◌≡◌, ◌≤◌};
ghost use Rattle.gdl.specs.Game.{Game};
ghost use Rattle.gdl.specs.Computed.{model};
ghost use Rattle.rules.specs.Accepted.{Accepted};
ghost use Rattle.rules.specs.Verdict.{fit};
ghost use Rattle.verdict.specs.Consulted.{found, found_in};
ghost use Rattle.calls.specs.Calls.{play};
ghost use Rattle.answers.specs.Asked.{Asked};
ghost use Rattle.answers.specs.Lowest.{IsLowest, Chosen, lacks, wrongs};
ghost use Rattle.answers.specs.Outcome.{moved_in};

use crate::positions::first_marks;
use crate::shared::going;
use calls::Moved;
use gdl::kinds::Kind;
use refusals::Refusal;
use session::Session;
use verdict::{Learnt, marks_in};

// The lowest seat without a choice.
fn first_unchosen(choices: [u16; 8], seats: u16) -> Option<usize>
    requires { seats ≤ 8 }
    ensures { IsLowest (lacks choices) seats result }
{
    choices[0..usize::from(seats)]
        .iter()
        .position(|choice| *choice == 0)
}

// The lowest seat whose choice is not legal.
fn first_illegal(choices: [u16; 8], legal: &[u8; 2048], seats: u16) -> Option<usize>
    requires { Chosen choices seats }
    ensures { IsLowest (wrongs choices legal.now) seats result }
{
    (0..usize::from(seats)).find(|s| legal[*s * 256 + usize::from(choices[*s] - 1)] != 1)
}

// Moves a record on, where no refusal strikes. What was found is true with the joint choice; by rule 10 that changes neither the end nor what is legal.
fn moved_on(learnt: &Learnt, session: &mut Session) -> Result<(), Refusal>
    requires { Asked (found learnt.now) session.old.position session.old.choices }
    ensures { (G : Game) → Accepted G → found learnt.now ≡ found_in G (model G session.old.position session.old.choices) → moved_in session.new result ≡ play (fit G) session.old }
{
    let limits = going(learnt, *session)?;
    if let Some(seat) = first_unchosen(session.choices, limits.seats) {
        return Err(Refusal::NoChoice(seat));
    }
    let legal = marks_in(learnt, Kind::Legal, 256);
    if let Some(seat) = first_illegal(session.choices, &legal, limits.seats) {
        return Err(Refusal::NotLegal(seat));
    }
    if session.round == 65535 {
        return Err(Refusal::LastRound);
    }
    let nexts = marks_in(learnt, Kind::Next, 1);
    session.position = first_marks(&nexts);
    session.choices = [0; 8];
    session.percepts = marks_in(learnt, Kind::Sees, 256);
    session.round += 1;
    Ok(())
}

// "play 19, 20, 18, 22", after 21.
pub fn play_fit(learnt: &Learnt, session: Session) -> Moved
    requires { Asked (found learnt.now) session.position session.choices }
    ensures { (G : Game) → Accepted G → found learnt.now ≡ found_in G (model G session.position session.choices) → result ≡ play (fit G) session }
{
    let mut session = session;
    let refusal = moved_on(learnt, &mut session)
        .err()
        .unwrap_or(Refusal::Success);
    Moved { refusal, session }
}

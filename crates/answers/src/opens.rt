// Open, on an accepted table.
ghost use Rattle.std.specs.Prelude.{◌≡◌, []};
ghost use Rattle.gdl.specs.Game.{Game};
ghost use Rattle.gdl.specs.Computed.{model};
ghost use Rattle.rules.specs.Accepted.{Accepted};
ghost use Rattle.rules.specs.Verdict.{fit};
ghost use Rattle.verdict.specs.Consulted.{found, found_in};
ghost use Rattle.calls.specs.Calls.{open_game};
ghost use Rattle.answers.specs.Asked.{Asked};

use crate::positions::first_marks;
use calls::Moved;
use gdl::kinds::Kind;
use refusals::Refusal;
use session::Session;
use verdict::{Learnt, marks_in};

// "Open starts at round 0 without choices or percepts": what was found is true with nothing set and nothing chosen.
pub fn open_fit(learnt: &Learnt) -> Moved
    requires { Asked (found learnt.now) [] [] }
    ensures { (G : Game) → Accepted G → found learnt.now ≡ found_in G (model G [] []) → result ≡ open_game (fit G) }
{
    let marks = marks_in(learnt, Kind::Init, 1);
    Moved {
        refusal: Refusal::Success,
        session: Session {
            position: first_marks(&marks),
            choices: [0; 8],
            percepts: [0; 2048],
            round: 0,
        },
    }
}

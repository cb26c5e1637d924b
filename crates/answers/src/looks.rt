// Hidden, on an accepted table.
ghost use Rattle.std.specs.Prelude.{◌≡◌};
ghost use Rattle.gdl.specs.Game.{Game};
ghost use Rattle.gdl.specs.Computed.{reach_of};
ghost use Rattle.rules.specs.Accepted.{Accepted};
ghost use Rattle.rules.specs.Verdict.{fit};
ghost use Rattle.verdict.specs.Consulted.{found, found_in};
ghost use Rattle.calls.specs.Calls.{hidden_from};
ghost use Rattle.answers.specs.Asked.{Traced};
ghost use Rattle.answers.specs.Outcome.{looked_from};

use crate::positions::limits_of;
use crate::shared::within;
use calls::Looked;
use gdl::kinds::Kind;
use gdl::{Move, Seat};
use refusals::Refusal;
use verdict::{Learnt, marks_in};

// 1 where the move is hidden from the asking seat, else 0. A does atom that is not in the table reaches nobody.
fn looked(learnt: &Learnt, asking: Seat, moving: Seat, choice: Move) -> Result<u8, Refusal>
    requires { Traced (found learnt.now) asking.0 }
    ensures { (G : Game) → Accepted G → found learnt.now ≡ found_in G (reach_of G asking.0) → looked_from result ≡ hidden_from (fit G) asking.0 moving.0 choice.0 }
{
    let limits = limits_of(learnt.header);
    within(asking.0, limits.seats, Refusal::NoSuchSeat)?;
    let row = within(moving.0, limits.seats, Refusal::NoSuchSeat)?;
    let column = within(choice.0, limits.moves, Refusal::NoSuchMove)?;
    let reached = marks_in(learnt, Kind::Does, 256);
    Ok(u8::from(reached[row * 256 + column] != 1))
}

// "hidden 15 (asking seat, then moving seat), 16".
pub fn hidden_fit(learnt: &Learnt, asking: Seat, moving: Seat, choice: Move) -> Looked
    requires { Traced (found learnt.now) asking.0 }
    ensures { (G : Game) → Accepted G → found learnt.now ≡ found_in G (reach_of G asking.0) → result ≡ hidden_from (fit G) asking.0 moving.0 choice.0 }
{
    match looked(learnt, asking, moving, choice) {
        Ok(hidden) => Looked {
            refusal: Refusal::Success,
            hidden,
        },
        Err(refusal) => Looked { refusal, hidden: 0 },
    }
}

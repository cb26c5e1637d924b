// The position and the choices of a model command.
ghost use Rattle.std.specs.Prelude.{◌≡◌};
ghost use Rattle.commands.specs.Placing.{placed};

use crate::fault::Fault;
use lines::hex::{HexFault, read_hex};
use session::bytes::read_choices;

#[derive(Clone, Copy)]
pub struct Placed {
    pub position: [u8; 512],
    pub choices: [u16; 8],
}

// Wrong hex in either word is told before a wrong length.
#[tactic(auto, unfolding(crate::specs::Placing::placed, crate::specs::Placing::wrong_in))]
pub fn place(position: &[u8], choices: &[u8]) -> Result<Placed, Fault>
    ensures { result ≡ placed position.now choices.now }
{
    let mut flags = [0; 512];
    let mut chosen = [0; 16];
    let first = read_hex(position, &mut flags);
    let second = read_hex(choices, &mut chosen);
    if first == Err(HexFault::NotHex) || second == Err(HexFault::NotHex) {
        return Err(Fault::NotHex);
    }
    if first != Ok(512) || second != Ok(16) {
        return Err(Fault::ModelBytes);
    }
    Ok(Placed {
        position: flags,
        choices: read_choices(&chosen, 0),
    })
}

// Limits, and positions from marks.
ghost use Rattle.std.specs.Prelude.{◌≡◌, length, take};

use session::shape::Limits;
use table::header::Header;

// How much of each thing a table has. No `From`: neither Limits nor Header is of this crate.
pub fn limits_of(header: Header) -> Limits
    ensures { result ≡ record { seats = header.players.seats; fluents = header.sizes.fluents; moves = header.sizes.moves; percepts = header.sizes.percepts } }
{
    Limits {
        seats: header.players.seats,
        fluents: header.sizes.fluents,
        moves: header.sizes.moves,
        percepts: header.sizes.percepts,
    }
}

// The marks of the fluents: a position.
pub fn first_marks(marks: &[u8]) -> [u8; 512]
    requires { length marks.now ≡ 2048 }
    ensures { result ≡ take 512 marks.now }
{
    let mut position = [0; 512];
    position.copy_from_slice(&marks[0..512]);
    position
}

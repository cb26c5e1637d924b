// The record as bytes: its fields in their order, little endian, 512 + 16 + 2,048 + 4 = 2,580 bytes.
ghost use Rattle.std.specs.Prelude.{◌≡◌, ◌+◌, ◌*◌, ◌≤◌, length, drop};
ghost use Rattle.std.proofs.lemmas.List.Edits.{sets};
ghost use Rattle.session.specs.Shape.{blank_session};
ghost use Rattle.session.specs.Bytes.{pairs_of, from_pairs, session_bytes, session_of, read_of};

use crate::Session;

// "a blank record (round 0, nothing set or chosen)"
pub fn blank_session() -> Session
    ensures { result ≡ blank_session }
{
    Session {
        position: [0; 512],
        choices: [0; 8],
        percepts: [0; 2048],
        round: 0,
    }
}

// Writes numbers as two bytes each, the lower first.
#[tactic(auto, using(crate::proofs::Storing::pairings))]
fn write_choices(room: &mut [u8; 2580], at: usize, choices: &[u16])
    requires { at + 2 * length choices.now ≤ 2580 }
    ensures { room.new ≡ sets room.old at (pairs_of choices.now) }
{
    for (k, choice) in choices.iter().enumerate() {
        let start = at + 2 * k;
        room[start..start + 2].copy_from_slice(&choice.to_le_bytes());
    }
}

pub fn to_bytes(s: Session) -> [u8; 2580]
    ensures { result ≡ session_bytes s }
{
    let mut room = [0; 2580];
    room[0..512].copy_from_slice(&s.position);
    write_choices(&mut room, 512, &s.choices);
    room[528..2576].copy_from_slice(&s.percepts);
    room[2576..2580].copy_from_slice(&s.round.to_le_bytes());
    room
}

// Reads eight numbers of two bytes each, the lower first.
#[tactic(auto, using(crate::proofs::Recalling::choosings))]
pub fn read_choices(bytes: &[u8], at: usize) -> [u16; 8]
    requires { at + 16 ≤ length bytes.now }
    ensures { result ≡ from_pairs 8 (drop at bytes.now) }
{
    let mut choices = [0; 8];
    for k in 0..8 {
        let start = at + 2 * k;
        choices[k] = u16::from_le_bytes([bytes[start], bytes[start + 1]]);
    }
    choices
}

pub fn session_of(bytes: &[u8]) -> Session
    requires { length bytes.now ≡ 2580 }
    ensures { result ≡ session_of bytes.now }
{
    let mut position = [0; 512];
    position.copy_from_slice(&bytes[0..512]);
    let choices = read_choices(bytes, 512);
    let mut percepts = [0; 2048];
    percepts.copy_from_slice(&bytes[528..2576]);
    let round = u32::from_le_bytes([bytes[2576], bytes[2577], bytes[2578], bytes[2579]]);
    Session {
        position,
        choices,
        percepts,
        round,
    }
}

// Any 2,580 bytes are a record, be it a badly shaped one.
pub fn from_bytes(bytes: &[u8; 2580]) -> Session
    ensures { result ≡ session_of bytes.now }
{
    session_of(bytes)
}

// The record that bytes are, if there are as many as a record has.
pub fn read_record(bytes: &[u8]) -> Option<Session>
    ensures { result ≡ read_of bytes.now }
{
    if bytes.len() == 2580 {
        Some(session_of(bytes))
    } else {
        None
    }
}

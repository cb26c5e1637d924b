// What seats read, and what is hidden from them.
use gdl::{Move, Seat};
use refusals::Refusal;
use session::Session;

pub fn opened(table: &[u8]) -> Session {
    referee::open_game(table).session
}

fn offered(table: &[u8], session: Session, seat: u16, choice: u16) -> Session {
    referee::offer(table, session, Seat(seat), Move(choice)).session
}

// The session after the first round, in which seats 0 and 1 play these moves.
pub fn played(table: &[u8], first: u16, second: u16) -> Session {
    let one = offered(table, opened(table), 0, first);
    let both = offered(table, one, 1, second);
    referee::play(table, both).session
}

// Whether a seat's message is this one.
pub fn reads(table: &[u8], session: Session, seat: u16, expected: &[u8]) -> bool {
    let mut room = [0u8; 1024];
    let sent = referee::message(table, session, Seat(seat), &mut room);
    sent.refusal == Refusal::Success && room.get(..sent.length) == Some(expected)
}

// Whether the hidden call answers this for a move.
fn answers(table: &[u8], asking: u16, moving: u16, choice: u16, hidden: u8) -> bool {
    let looked = referee::hidden(table, Seat(asking), Seat(moving), Move(choice));
    looked.refusal == Refusal::Success && looked.hidden == hidden
}

// Whether it does so for moves 0 and 1.
pub fn answers_for_both(table: &[u8], asking: u16, moving: u16, hidden: u8) -> bool {
    answers(table, asking, moving, 0, hidden) && answers(table, asking, moving, 1, hidden)
}

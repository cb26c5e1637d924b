// The commands that move the record on: open, offer, play, and record with its bytes.
ghost use Rattle.std.specs.Prelude.{◌≡◌};
ghost use Rattle.rules.specs.Judged.{judge};
ghost use Rattle.interpreter.specs.Turns.{turned, moved_on, open_turn, offer_turn, play_turn, set_turn, record_turn, Turns};

use calls::Moved;
use commands::fault::{Fault, hex_fault};
use commands::number::number_at;
use commands::reply::{put_ok, put_record, put_refusal};
use gdl::{Move, Seat};
use lines::hex::read_hex;
use lines::words::{count_words, word};
use session::Session;
use session::bytes::from_bytes;

// The record after a command, and how long the answer is.
#[derive(Clone, Copy)]
pub struct Turned {
    pub session: Session,
    pub length: usize,
}

// "the record handed back is now current"
fn moved(room: &mut [u8], moved: Moved) -> Turned
    ensures { (result, room.new) ≡ turned (moved_on moved) room.old }
{
    let length = put_refusal(room, moved.refusal);
    Turned {
        session: moved.session,
        length,
    }
}

#[tactic(auto, using(crate::proofs::Turning::turnings))]
pub fn open(table: &[u8], room: &mut [u8]) -> Turned
    ensures { (result, room.new) ≡ turned (open_turn (judge table.now)) room.old }
{
    moved(room, referee::open_game(table))
}

#[tactic(auto, using(crate::proofs::Turning::turnings), unfolding(crate::specs::Turns::offer_turn))]
pub fn offer(line: &[u8], table: &[u8], session: Session, room: &mut [u8]) -> Result<Turned, Fault>
    ensures { Turns (offer_turn line.now (judge table.now) session) session room.old result room.new }
{
    let seat = number_at(line, 1)?;
    let choice = number_at(line, 2)?;
    Ok(moved(
        room,
        referee::offer(table, session, Seat(seat), Move(choice)),
    ))
}

#[tactic(auto, using(crate::proofs::Turning::turnings))]
pub fn play(table: &[u8], session: Session, room: &mut [u8]) -> Turned
    ensures { (result, room.new) ≡ turned (play_turn (judge table.now) session) room.old }
{
    moved(room, referee::play(table, session))
}

// The record of 2,580 bytes.
fn set_record(word: &[u8], session: Session, room: &mut [u8]) -> Result<Turned, Fault>
    ensures { Turns (set_turn word.now session) session room.old result room.new }
{
    let mut bytes = [0; 2580];
    match read_hex(word, &mut bytes) {
        Ok(2580) => Ok(Turned {
            session: from_bytes(&bytes),
            length: put_ok(room, 2580),
        }),
        Ok(_) => Err(Fault::RecordBytes),
        Err(fault) => Err(hex_fault(fault, Fault::RecordBytes)),
    }
}

pub fn record(line: &[u8], session: Session, room: &mut [u8]) -> Result<Turned, Fault>
    ensures { Turns (record_turn line.now session) session room.old result room.new }
{
    if count_words(line) == 1 {
        let length = put_record(room, session);
        return Ok(Turned { session, length });
    }
    set_record(word(line, 1), session, room)
}

// The commands that change nothing: check, claim, message, hidden and model.
ghost use Rattle.std.specs.Prelude.{◌≡◌, length};
ghost use Rattle.gdl.specs.Flags.{blank};
ghost use Rattle.rules.specs.Judged.{judge};
ghost use Rattle.calls.specs.Calls.{claim, message};
ghost use Rattle.interpreter.specs.Said.{said, Says, Tries};
ghost use Rattle.interpreter.specs.Looks.{CheckSaid, claim_texts, sent_texts, message_texts, HiddenTold, HiddenSaid, flags_in, no_flags, ModelTold, ModelSaid};

use commands::fault::Fault;
use commands::number::{number_at, room_at};
use commands::position::{Placed, place};
use commands::reply::{put_bytes, put_more, put_refusal};
use gdl::{Move, Seat};
use lines::text::first_bytes;
use lines::words::word;
use session::Session;

// "NUMBER PLACE"
pub fn check(table: &[u8], room: &mut [u8]) -> usize
    ensures { Says (CheckSaid table.now) room.old (result, room.new) }
{
    put_refusal(room, referee::check(table))
}

// "NUMBER PLACE CLAIM"
#[tactic(auto, using(crate::proofs::Looking::lookings))]
pub fn claim(table: &[u8], room: &mut [u8]) -> usize
    ensures { (result, room.new) ≡ said (claim_texts (claim (judge table.now))) room.old }
{
    let claimed = referee::claim(table);
    let at = put_refusal(room, claimed.refusal);
    put_more(room, at, u64::from(claimed.claim))
}

// "NUMBER PLACE LENGTH HEX"
#[tactic(auto, using(crate::proofs::Looking::lookings))]
fn put_message(
    table: &[u8],
    session: Session,
    seat: Seat,
    lent: &mut [u8],
    room: &mut [u8],
) -> usize
    ensures { (result, room.new) ≡ said (sent_texts (message (judge table.now) session seat.0 lent.old)) room.old }
{
    let sent = referee::message(table, session, seat, lent);
    let a = put_refusal(room, sent.refusal);
    let b = put_more(room, a, sent.length as u64);
    put_bytes(room, b, first_bytes(lent, sent.length))
}

// The same with so many bytes lent.
fn lend_message(table: &[u8], session: Session, seat: Seat, many: u16, room: &mut [u8]) -> usize
    ensures { (result, room.new) ≡ said (sent_texts (message (judge table.now) session seat.0 (blank many))) room.old }
{
    let mut lent = [0; 65535];
    let end = usize::from(many);
    put_message(table, session, seat, &mut lent[..end], room)
}

#[tactic(auto, using(crate::proofs::Looking::lookings), unfolding(crate::specs::Looks::message_texts))]
pub fn message(line: &[u8], table: &[u8], session: Session, room: &mut [u8]) -> Result<usize, Fault>
    ensures { Tries (λ t. t ≡ message_texts line.now (judge table.now) session) room.old result room.new }
{
    let seat = number_at(line, 1)?;
    let lent = room_at(line, 2)?;
    Ok(lend_message(table, session, Seat(seat), lent, room))
}

// "NUMBER PLACE ANSWER"
#[tactic(auto, using(crate::proofs::Looking::lookings))]
fn put_hidden(table: &[u8], asking: Seat, moving: Seat, choice: Move, room: &mut [u8]) -> usize
    ensures { Says (HiddenTold (judge table.now) asking.0 moving.0 choice.0) room.old (result, room.new) }
{
    let looked = referee::hidden(table, asking, moving, choice);
    let at = put_refusal(room, looked.refusal);
    put_more(room, at, u64::from(looked.hidden))
}

#[tactic(auto, using(crate::proofs::Looking::lookings), unfolding(crate::specs::Looks::hidden_numbers))]
pub fn hidden(line: &[u8], table: &[u8], room: &mut [u8]) -> Result<usize, Fault>
    ensures { Tries (HiddenSaid line.now (judge table.now)) room.old result room.new }
{
    let asking = number_at(line, 1)?;
    let moving = number_at(line, 2)?;
    let choice = number_at(line, 3)?;
    Ok(put_hidden(table, Seat(asking), Seat(moving), Move(choice), room))
}

// How many flags the model call has written: the places before the first that it left.
fn flags_in(lent: &[u8]) -> usize
    ensures { result ≡ length (flags_in lent.now) }
{
    lent.iter().position(|b| 1 < *b).unwrap_or(lent.len())
}

// "NUMBER PLACE HEX": the first A flags. Before the call the lent room holds no flag.
#[tactic(auto, using(crate::proofs::Looking::lookings))]
fn put_model(table: &[u8], placed: &Placed, lent: &mut [u8], room: &mut [u8]) -> usize
    ensures { Says (ModelTold (judge table.now) placed.now.position placed.now.choices lent.old) room.old (result, room.new) }
{
    let refusal = referee::model(table, placed.position, placed.choices, lent);
    let at = put_refusal(room, refusal);
    let many = flags_in(lent);
    put_bytes(room, at, first_bytes(lent, many))
}

// The same with so many bytes lent, 255 in each: `no_flags` of specs/Looks.antt.
fn lend_model(table: &[u8], placed: &Placed, many: u16, room: &mut [u8]) -> usize
    ensures { Says (ModelTold (judge table.now) placed.now.position placed.now.choices (no_flags many)) room.old (result, room.new) }
{
    let mut lent = [255; 65535];
    let end = usize::from(many);
    put_model(table, placed, &mut lent[..end], room)
}

#[tactic(auto, using(crate::proofs::Looking::lookings), unfolding(crate::specs::Looks::model_words))]
pub fn model(line: &[u8], table: &[u8], room: &mut [u8]) -> Result<usize, Fault>
    ensures { Tries (ModelSaid line.now (judge table.now)) room.old result room.new }
{
    let placed = place(word(line, 1), word(line, 2))?;
    let lent = room_at(line, 3)?;
    Ok(lend_model(table, &placed, lent, room))
}

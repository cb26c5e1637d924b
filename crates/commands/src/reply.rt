// Answers in words: the number and place of a refusal, and what stands behind them.
ghost use Rattle.std.specs.Prelude.{◌≡◌};
ghost use Rattle.commands.specs.Texts.{puts};
ghost use Rattle.commands.specs.Replies.{refusal_texts, more_texts, bytes_texts, ok_texts, record_texts, help_texts};

use lines::decimal::put_decimal;
use lines::hex::put_hex;
use lines::text::put_text;
use refusals::Refusal;
use session::Session;
use session::bytes::to_bytes;

// "NUMBER PLACE"
#[tactic(auto, using(crate::proofs::Putting::puttings))]
pub fn put_refusal(room: &mut [u8], refusal: Refusal) -> usize
    ensures { (result, room.new) ≡ puts (refusal_texts refusal) (0, room.old) }
{
    let at = put_decimal(room, 0, u64::from(refusals::number_of(refusal)));
    put_more(room, at, refusals::place_of(refusal) as u64)
}

// One more number.
#[tactic(auto, using(crate::proofs::Putting::puttings))]
pub fn put_more(room: &mut [u8], at: usize, x: u64) -> usize
    ensures { (result, room.new) ≡ puts (more_texts x) (at, room.old) }
{
    let next = put_text(room, at, b" ");
    put_decimal(room, next, x)
}

// Bytes behind what is there.
#[tactic(auto, using(crate::proofs::Putting::puttings))]
pub fn put_bytes(room: &mut [u8], at: usize, bytes: &[u8]) -> usize
    ensures { (result, room.new) ≡ puts (bytes_texts bytes.now) (at, room.old) }
{
    let next = put_text(room, at, b" ");
    put_hex(room, next, bytes)
}

// "ok LENGTH"
#[tactic(auto, using(crate::proofs::Putting::puttings))]
pub fn put_ok(room: &mut [u8], length: usize) -> usize
    ensures { (result, room.new) ≡ puts (ok_texts length) (0, room.old) }
{
    let next = put_text(room, 0, b"ok ");
    put_decimal(room, next, length as u64)
}

#[tactic(auto, using(crate::proofs::Putting::puttings))]
pub fn put_record(room: &mut [u8], session: Session) -> usize
    ensures { (result, room.new) ≡ puts (record_texts session) (0, room.old) }
{
    let bytes = to_bytes(session);
    put_hex(room, 0, &bytes)
}

pub fn put_help(room: &mut [u8]) -> usize
    ensures { (result, room.new) ≡ puts help_texts (0, room.old) }
{
    put_text(
        room,
        0,
        b"commands: table HEX, load FILE, check, claim, open, offer SEAT MOVE, play, message SEAT [ROOM], hidden SEAT SEAT MOVE, model HEX HEX [ROOM], record [HEX], help",
    )
}

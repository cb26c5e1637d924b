// The calls over numbers and byte slices, for a host that is not written in Rattle; the crate host_c exports them as C functions.
#![tactic(auto, using(crate::proofs::Hosting::hostings))]

mod records; // records handed back in their byte form

ghost use Rattle.std.specs.Prelude.{◌≡◌};
ghost use Rattle.rules.specs.Judged.{judge};
ghost use Rattle.host.specs.Hosted.{said, wrong_length, CheckHosted, claim_hosted, open_hosted, offer_hosted, play_hosted, message_hosted, HiddenHosted, ModelHosted};

use gdl::{Move, Seat};
use records::{hand_back, hand_out};
use refusals::{Refusal, number_of, place_of};
use session::bytes::{read_choices, read_record};

// The number and the place of a refusal, and the call's own number: the claim, the length or the hidden answer, and else 0.
// A number in place of a Result: C reads the three fields (embalume.h).
#[repr(C)]
#[derive(Clone, Copy)]
pub struct Answer {
    pub number: u64,
    pub place: u64,
    pub value: u64,
}

fn said(refusal: Refusal, value: u64) -> Answer
    ensures { result ≡ said refusal value }
{
    Answer {
        number: u64::from(number_of(refusal)),
        place: place_of(refusal) as u64,
        value,
    }
}

// The answer to a record, a position or choices of another length.
fn wrong_length() -> Answer
    ensures { result ≡ wrong_length }
{
    Answer {
        number: 255,
        place: 0,
        value: 0,
    }
}

pub fn embalume_check(table: &[u8]) -> Answer
    ensures { CheckHosted table.now result }
{
    said(referee::check(table), 0)
}

pub fn embalume_claim(table: &[u8]) -> Answer
    ensures { result ≡ claim_hosted (judge table.now) }
{
    let claimed = referee::claim(table);
    said(claimed.refusal, u64::from(claimed.claim))
}

pub fn embalume_open(table: &[u8], bytes: &mut [u8]) -> Answer
    ensures { (result, bytes.new) ≡ open_hosted (judge table.now) bytes.old }
{
    if bytes.len() != 2580 {
        return wrong_length();
    }
    hand_out(referee::open_game(table), bytes)
}

pub fn embalume_offer(table: &[u8], bytes: &mut [u8], seat: u16, choice: u16) -> Answer
    ensures { (result, bytes.new) ≡ offer_hosted (judge table.now) seat choice bytes.old }
{
    let Some(session) = read_record(bytes) else {
        return wrong_length();
    };
    hand_back(
        referee::offer(table, session, Seat(seat), Move(choice)),
        bytes,
    )
}

pub fn embalume_play(table: &[u8], bytes: &mut [u8]) -> Answer
    ensures { (result, bytes.new) ≡ play_hosted (judge table.now) bytes.old }
{
    let Some(session) = read_record(bytes) else {
        return wrong_length();
    };
    hand_back(referee::play(table, session), bytes)
}

pub fn embalume_message(table: &[u8], bytes: &[u8], seat: u16, room: &mut [u8]) -> Answer
    ensures { (result, room.new) ≡ message_hosted (judge table.now) bytes.now seat room.old }
{
    let Some(session) = read_record(bytes) else {
        return wrong_length();
    };
    let sent = referee::message(table, session, Seat(seat), room);
    said(sent.refusal, sent.length as u64)
}

pub fn embalume_hidden(table: &[u8], asking: u16, moving: u16, choice: u16) -> Answer
    ensures { HiddenHosted (judge table.now) asking moving choice result }
{
    let looked = referee::hidden(table, Seat(asking), Seat(moving), Move(choice));
    said(looked.refusal, u64::from(looked.hidden))
}

pub fn embalume_model(table: &[u8], position: &[u8], choices: &[u8], room: &mut [u8]) -> Answer
    ensures { ModelHosted (judge table.now) position.now choices.now room.old (result, room.new) }
{
    if position.len() != 512 || choices.len() != 16 {
        return wrong_length();
    }
    let mut flags = [0; 512];
    flags.copy_from_slice(position);
    said(
        referee::model(table, flags, read_choices(choices, 0), room),
        0,
    )
}

// The calls as C functions, for the static library: each is the call of the same name in host, with its clauses. host/embalume.h declares them.
#![tactic(auto)]

ghost use Rattle.std.specs.Prelude.{◌≡◌};
ghost use Rattle.rules.specs.Judged.{judge};
ghost use Rattle.host.specs.Hosted.{CheckHosted, claim_hosted, open_hosted, offer_hosted, play_hosted, message_hosted, HiddenHosted, ModelHosted};

use host::Answer;

#[unsafe(no_mangle)]
pub extern "C" fn embalume_check(table: &[u8]) -> Answer
    ensures { CheckHosted table.now result }
{
    host::embalume_check(table)
}

#[unsafe(no_mangle)]
pub extern "C" fn embalume_claim(table: &[u8]) -> Answer
    ensures { result ≡ claim_hosted (judge table.now) }
{
    host::embalume_claim(table)
}

#[unsafe(no_mangle)]
pub extern "C" fn embalume_open(table: &[u8], bytes: &mut [u8]) -> Answer
    ensures { (result, bytes.new) ≡ open_hosted (judge table.now) bytes.old }
{
    host::embalume_open(table, bytes)
}

#[unsafe(no_mangle)]
pub extern "C" fn embalume_offer(table: &[u8], bytes: &mut [u8], seat: u16, choice: u16) -> Answer
    ensures { (result, bytes.new) ≡ offer_hosted (judge table.now) seat choice bytes.old }
{
    host::embalume_offer(table, bytes, seat, choice)
}

#[unsafe(no_mangle)]
pub extern "C" fn embalume_play(table: &[u8], bytes: &mut [u8]) -> Answer
    ensures { (result, bytes.new) ≡ play_hosted (judge table.now) bytes.old }
{
    host::embalume_play(table, bytes)
}

#[unsafe(no_mangle)]
pub extern "C" fn embalume_message(table: &[u8], bytes: &[u8], seat: u16, room: &mut [u8]) -> Answer
    ensures { (result, room.new) ≡ message_hosted (judge table.now) bytes.now seat room.old }
{
    host::embalume_message(table, bytes, seat, room)
}

#[unsafe(no_mangle)]
pub extern "C" fn embalume_hidden(table: &[u8], asking: u16, moving: u16, choice: u16) -> Answer
    ensures { HiddenHosted (judge table.now) asking moving choice result }
{
    host::embalume_hidden(table, asking, moving, choice)
}

#[unsafe(no_mangle)]
pub extern "C" fn embalume_model(
    table: &[u8],
    position: &[u8],
    choices: &[u8],
    room: &mut [u8],
) -> Answer
    ensures { ModelHosted (judge table.now) position.now choices.now room.old (result, room.new) }
{
    host::embalume_model(table, position, choices, room)
}

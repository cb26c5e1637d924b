// The numbers of a command.
ghost use Rattle.std.specs.Prelude.{◌≡◌};
ghost use Rattle.commands.specs.Numbers.{number_at, room_at};

use crate::fault::Fault;
use lines::decimal::read_decimal;
use lines::words::{count_words, word};

#[tactic(auto, unfolding(crate::specs::Numbers::number_at))]
pub fn number_at(line: &[u8], k: usize) -> Result<u16, Fault>
    ensures { result ≡ number_at line.now k }
{
    Ok(read_decimal(word(line, k))?)
}

// The bytes lent, "default 1024".
#[tactic(auto, unfolding(crate::specs::Numbers::room_at))]
pub fn room_at(line: &[u8], k: usize) -> Result<u16, Fault>
    ensures { result ≡ room_at line.now k }
{
    if count_words(line) <= k {
        return Ok(1024);
    }
    number_at(line, k)
}

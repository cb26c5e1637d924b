// What is wrong with a line, and the answer that says so.
ghost use Rattle.std.specs.Prelude.{◌≡◌};
ghost use Rattle.commands.specs.Texts.{puts};
ghost use Rattle.commands.specs.Faults.{decimal_fault, hex_fault, what, error_texts};

use lines::decimal::DecimalFault;
use lines::hex::HexFault;
use lines::text::put_text;

#[derive(Clone, Copy, PartialEq, Eq, Debug)]
pub enum Fault {
    Blanks,
    Command,
    Words,
    NotDecimal,
    TooLarge,
    NotHex,
    ModelBytes,
    RecordBytes,
    TableBytes,
    NoFile,
    LongLine,
}

impl From<DecimalFault> for Fault {
    ghost from_gives = { λ d f. f ≡ decimal_fault d };

    fn from(fault: DecimalFault) -> Fault {
        match fault {
            DecimalFault::NotDecimal => Fault::NotDecimal,
            DecimalFault::TooLarge => Fault::TooLarge,
        }
    }
}

// What is wrong with a word of hex, by what is wrong with too many bytes there.
pub fn hex_fault(fault: HexFault, too_many: Fault) -> Fault
    ensures { result ≡ hex_fault too_many fault }
{
    match fault {
        HexFault::NotHex => Fault::NotHex,
        HexFault::TooMany => too_many,
    }
}

fn what(fault: Fault) -> &'static [u8]
    ensures { result.now ≡ what fault }
{
    match fault {
        Fault::Blanks => b"empty line or extra blank",
        Fault::Command => b"unknown command",
        Fault::Words => b"missing or extra word",
        Fault::NotDecimal => b"not a decimal number",
        Fault::TooLarge => b"number over 65535",
        Fault::NotHex => b"odd or wrong hex",
        Fault::ModelBytes => b"position or choices of another length",
        Fault::RecordBytes => b"a record has 2580 bytes",
        Fault::TableBytes => b"table over 70000 bytes",
        Fault::NoFile => b"no such file",
        Fault::LongLine => b"line too long",
    }
}

// "error WHAT"
#[tactic(auto, using(crate::proofs::Putting::puttings))]
pub fn put_fault(room: &mut [u8], fault: Fault) -> usize
    ensures { (result, room.new) ≡ puts (error_texts fault) (0, room.old) }
{
    let at = put_text(room, 0, b"error ");
    put_text(room, at, what(fault))
}

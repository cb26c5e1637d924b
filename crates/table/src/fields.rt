// A number within its range, at the place where a reader stands.
ghost use Rattle.std.specs.Prelude.{◌≡◌};
ghost use Rattle.table.specs.Parse.{bounded, refusal_of};
ghost use Rattle.table.specs.Says.{says};

use numbers::Fault;
use reader::Reader;
use refusals::Refusal;
use std::ops::Range;

// The refusal of a table in which no number stands at a place.
fn refusal_of(fault: Fault, at: usize) -> Refusal
    ensures { result ≡ refusal_of fault at }
{
    match fault {
        Fault::Cut => Refusal::InputEnds(at),
        Fault::Long | Fault::Large => Refusal::NotANumber(at),
    }
}

// Reads a number within a range, and goes on to the place after it. A refusal names the place where it starts. That the table stays (`same`)
// is said of each function that moves a reader: an invariant of Reader cannot speak of the one before.
#[tactic(auto, unfolding(crate::specs::Parse::bounded))]
pub fn number(reader: &mut Reader, range: Range<u32>) -> Result<u16, Refusal>
    ensures same { reader.new.table ≡ reader.old.table }
    ensures says { says result reader.new.at ≡ bounded range.start range.end reader.old.table.now reader.old.at }
{
    let at = reader.at;
    let item = reader.next().map_err(|fault| refusal_of(fault, at))?;
    if !range.contains(&u32::from(item.value)) {
        return Err(Refusal::OutOfRange(at));
    }
    Ok(item.value)
}

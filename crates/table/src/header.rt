// The header: who plays, and how much of each thing there is.
ghost use Rattle.std.specs.Prelude.{◌≡◌};
ghost use Rattle.table.specs.Table.{players, sizes, header};
ghost use Rattle.table.specs.Says.{says};

use crate::fields::number;
use reader::Reader;
use refusals::Refusal;

#[derive(Clone, Copy)]
pub struct Players {
    pub claim: u16,
    pub seats: u16,
    pub chance: u16,
}

#[derive(Clone, Copy)]
pub struct Sizes {
    pub fluents: u16,
    pub moves: u16,
    pub percepts: u16,
    pub atoms: u16,
}

#[derive(Clone, Copy)]
pub struct Header {
    pub players: Players,
    pub sizes: Sizes,
}

// Each of these reads from a place on, and goes on to the place after what was read.
#[tactic(auto, unfolding(crate::specs::Table::players))]
fn read_players(reader: &mut Reader) -> Result<Players, Refusal>
    ensures same { reader.new.table ≡ reader.old.table }
    ensures says { says result reader.new.at ≡ players reader.old.table.now reader.old.at }
{
    let _version = number(reader, 1..2)?;
    let claim = number(reader, 0..65536)?;
    let seats = number(reader, 1..9)?;
    let chance = number(reader, 0..u32::from(seats) + 1)?;
    Ok(Players {
        claim,
        seats,
        chance,
    })
}

#[tactic(auto, unfolding(crate::specs::Table::sizes))]
fn read_sizes(reader: &mut Reader) -> Result<Sizes, Refusal>
    ensures same { reader.new.table ≡ reader.old.table }
    ensures says { says result reader.new.at ≡ sizes reader.old.table.now reader.old.at }
{
    let fluents = number(reader, 0..513)?;
    let moves = number(reader, 1..257)?;
    let percepts = number(reader, 0..257)?;
    let atoms = number(reader, 1..1025)?;
    Ok(Sizes {
        fluents,
        moves,
        percepts,
        atoms,
    })
}

#[tactic(auto, unfolding(crate::specs::Table::header))]
pub fn read_header(reader: &mut Reader) -> Result<Header, Refusal>
    ensures same { reader.new.table ≡ reader.old.table }
    ensures says { says result reader.new.at ≡ header reader.old.table.now reader.old.at }
{
    let players = read_players(reader)?;
    let sizes = read_sizes(reader)?;
    Ok(Header { players, sizes })
}

// A whole table: header, atoms, clauses, and nothing after.
ghost use Rattle.std.specs.Prelude.{◌≡◌, ◌≤◌};
ghost use Rattle.table.specs.Table.{clauses, game, table};
ghost use Rattle.table.specs.Says.{WroteRest, WroteGame, WroteTable, blank_arrays};

use crate::atoms::read_atoms;
use crate::clauses::read_clauses;
use crate::fields::number;
use crate::header::{Header, read_header};
use reader::Reader;
use refusals::Refusal;

// Room for the atoms of a table: their kinds and fields, each atom at its number in all three. The rooms hold arrays side by side, since
// `AtomsLaid` and `ClausesLaid` of specs/Says.antt say of each what it holds; their sizes are fixed, since there is no heap.
#[derive(Clone, Copy)]
pub struct AtomRoom {
    pub kinds: [u16; 1024],
    pub firsts: [u16; 1024],
    pub seconds: [u16; 1024],
}

// Room for the clauses of a table: clause k has its head at k, and its literals from starts[k] up to starts[k + 1]; owners has the
// head of each literal's clause.
#[derive(Drop)]
pub struct ClauseRoom {
    pub heads: [u16; 2048],
    pub starts: [u16; 2049],
    pub literals: [u16; 8192],
    pub owners: [u16; 8192],
}

#[derive(Drop)]
pub struct Arrays {
    pub atoms: AtomRoom,
    pub clauses: ClauseRoom,
}

// Arrays to read into, answered once a call.
pub fn blank_arrays() -> Arrays
    ensures { result ≡ blank_arrays }
{
    Arrays {
        atoms: AtomRoom {
            kinds: [0; 1024],
            firsts: [0; 1024],
            seconds: [0; 1024],
        },
        clauses: ClauseRoom {
            heads: [0; 2048],
            starts: [0; 2049],
            literals: [0; 8192],
            owners: [0; 8192],
        },
    }
}

// What a table answers beside its arrays: its header, and how many clauses it has.
#[derive(Clone, Copy)]
pub struct Read {
    pub header: Header,
    pub clauses: u16,
}

// The count of clauses, the clauses, and nothing after, into lent room; the answer is the count.
#[tactic(auto, using(crate::proofs::Values::belows), unfolding(crate::specs::Table::clauses))]
fn read_rest(reader: &mut Reader, atoms: u16, room: &mut ClauseRoom) -> Result<u16, Refusal>
    ensures { WroteRest (clauses atoms reader.old.table.now reader.old.at) room.old result room.new }
{
    let many = number(reader, 0..2049)?;
    read_clauses(reader, many, atoms, room)?;
    if reader.at < reader.table.len() {
        return Err(Refusal::BytesAfter(reader.at));
    }
    Ok(many)
}

// The atoms and the clauses of a table whose header was read, into lent arrays; the answer is the count of clauses.
fn read_game(reader: &mut Reader, h: Header, arrays: &mut Arrays) -> Result<u16, Refusal>
    requires { h.sizes.atoms ≤ 1024 }
    ensures { WroteGame (game h reader.old.table.now reader.old.at) h result arrays.old arrays.new }
{
    read_atoms(reader, h, &mut arrays.atoms)?;
    read_rest(reader, h.sizes.atoms, &mut arrays.clauses)
}

// The table that the bytes hold, or the first fault in reading order, into lent arrays: they are made once a call (`blank_arrays`), and no function that
// reads answers their 46 KB again. Later places stay as they are.
#[tactic(auto, using(crate::proofs::Whole::table_laws, crate::proofs::Values::belows), unfolding(crate::specs::Table::table))]
pub fn read_table(s: &[u8], arrays: &mut Arrays) -> Result<Read, Refusal>
    ensures { WroteTable (table s.now 0) result arrays.old arrays.new }
{
    if 65535 < s.len() {
        return Err(Refusal::TableTooLong);
    }
    let mut reader = Reader::start(s, 0);
    let header = read_header(&mut reader)?;
    let clauses = read_game(&mut reader, header, arrays)?;
    Ok(Read { header, clauses })
}

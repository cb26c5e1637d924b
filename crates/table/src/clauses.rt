// Clause records: a head, a count of literals, and the literals.
ghost use Rattle.std.specs.Prelude.{◌≡◌, ◌≤◌, ◌+◌, ◌*◌, ◌-◌, length, replicate};
ghost use Rattle.std.proofs.lemmas.List.Edits.{sets};
ghost use Rattle.table.specs.Table.{literals, clause, clauses_from};
ghost use Rattle.table.specs.Says.{WroteLiterals, WroteClause, WroteClauses};

use crate::fields::number;
use crate::tables::ClauseRoom;
use gdl::Atom;
use reader::Reader;
use refusals::Refusal;

// Reads count literals, each below end, into the room from used on. The room goes with the place that it is filled up to: `clause` of
// specs/Table.antt counts what is left of all 8,192, and a part of the room in place of both would leave its contract no plainer.
#[tactic(auto, using(crate::proofs::ClauseRecords::fillings))]
fn read_literals(
    reader: &mut Reader,
    count: u16,
    end: u32,
    room: &mut [u16; 8192],
    used: usize,
) -> Result<(), Refusal>
    requires { used + count ≤ 8192 }
    ensures same { reader.new.table ≡ reader.old.table }
    ensures says { WroteLiterals (literals count end reader.old.table.now reader.old.at) room.old used result reader.new.at room.new }
{
    for k in 0..usize::from(count) {
        room[used + k] = number(reader, 0..end)?;
    }
    Ok(())
}

// A clause, less its literals.
#[derive(Clone, Copy)]
pub struct Outline {
    pub head: Atom,
    pub count: u16,
}

// Reads a clause, its literals into the room from used on.
#[tactic(auto, unfolding(crate::specs::Table::clause))]
fn read_clause(
    reader: &mut Reader,
    atoms: u16,
    room: &mut [u16; 8192],
    used: usize,
) -> Result<Outline, Refusal>
    requires { used ≤ 8192 }
    ensures same { reader.new.table ≡ reader.old.table }
    ensures says { WroteClause (clause atoms (8192 - used) reader.old.table.now reader.old.at) room.old used result reader.new.at room.new }
{
    let head = number(reader, 0..u32::from(atoms))?;
    let start = reader.at;
    let count = number(reader, 0..65)?;
    if 8192 - used < usize::from(count) {
        return Err(Refusal::OutOfRange(start));
    }
    read_literals(reader, count, 2 * u32::from(atoms), room, used)?;
    let head = Atom(head);
    Ok(Outline { head, count })
}

// Reads the clause records into lent room.
pub fn read_clauses(
    reader: &mut Reader,
    many: u16,
    atoms: u16,
    room: &mut ClauseRoom,
) -> Result<(), Refusal>
    requires { many ≤ 2048 }
    ensures same { reader.new.table ≡ reader.old.table }
    ensures says { WroteClauses (clauses_from many atoms 8192 reader.old.table.now reader.old.at) room.old result reader.new.at room.new }
{
    let n = usize::from(many);
    let mut used: usize = 0;
    for k in 0..n {
        let c = read_clause(reader, atoms, &mut room.literals, used)?;
        let count = usize::from(c.count);
        room.owners[used..used + count].fill(c.head.0);
        room.heads[k] = c.head.0;
        room.starts[k] = used as u16;
        used += count;
    }
    room.starts[n] = used as u16;
    Ok(())
}

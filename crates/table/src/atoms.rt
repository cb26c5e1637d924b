// Atom records: a kind and its fields, in strictly ascending order.
ghost use Rattle.std.specs.Prelude.{◌≡◌, ◌≤◌, ◌<◌};
ghost use Rattle.table.specs.declared.header.Header.{Header};
ghost use Rattle.table.specs.Table.{Bound, first_bounds, second_bounds, field, atom, atoms_from};
ghost use Rattle.table.specs.Says.{says, end_of, ends, EndsOf, atom_says, key_of, WroteAtoms};

use crate::fields::number;
use crate::header::Header;
use crate::tables::AtomRoom;
use reader::Reader;
use refusals::Refusal;

// What each kind allows in its first field: nothing, or numbers below an end. Made once for a table, in the order of
// the kinds' numbers (see `gdl::kinds::Kind`).
fn first_ends(h: Header) -> [Option<u32>; 10]
    ensures { result ≡ ends (first_bounds h) }
{
    let seat = Some(u32::from(h.players.seats));
    let fluent = Some(u32::from(h.sizes.fluents));
    [
        Some(1024),
        seat,
        fluent,
        fluent,
        seat,
        seat,
        fluent,
        seat,
        None,
        seat,
    ]
}

// The same of the second field.
fn second_ends(h: Header) -> [Option<u32>; 10]
    ensures { result ≡ ends (second_bounds h) }
{
    let choice = Some(u32::from(h.sizes.moves));
    let percept = Some(u32::from(h.sizes.percepts));
    [
        Some(1024),
        None,
        None,
        None,
        choice,
        choice,
        None,
        percept,
        None,
        Some(101),
    ]
}

// A field that a kind may lack: then it counts as 0 and takes no byte.
#[tactic(auto, unfolding(crate::specs::Table::field))]
fn read_optional(reader: &mut Reader, end: Option<u32>) -> Result<u16, Refusal>
    ensures same { reader.new.table ≡ reader.old.table }
    ensures says { (b : Bound) → end_of b ≡ end → says result reader.new.at ≡ field b reader.old.table.now reader.old.at }
{
    match end {
        Some(end) => number(reader, 0..end),
        None => Ok(0),
    }
}

#[derive(Clone, Copy)]
pub struct AtomRecord {
    pub kind: u16,
    pub first: u16,
    pub second: u16,
}

#[tactic(auto, using(crate::proofs::Values::belows), unfolding(crate::specs::Table::atom))]
fn read_atom(
    reader: &mut Reader,
    firsts: &[Option<u32>; 10],
    seconds: &[Option<u32>; 10],
) -> Result<AtomRecord, Refusal>
    ensures same { reader.new.table ≡ reader.old.table }
    ensures says { (h : Header) → EndsOf h firsts.now seconds.now → atom_says result reader.new.at ≡ atom h reader.old.table.now reader.old.at }
{
    let kind = number(reader, 0..10)?;
    let first = read_optional(reader, firsts[usize::from(kind)])?;
    let second = read_optional(reader, seconds[usize::from(kind)])?;
    Ok(AtomRecord {
        kind,
        first,
        second,
    })
}

// The place of an atom in the order, as one number: the page's `key`.
#[tactic(auto, unfolding(crate::specs::Table::key))]
fn key(a: AtomRecord) -> u64
    ensures { (result ≡ key_of a) × (result < 281474976710656) }
{
    u64::from(a.kind) * 4294967296 + u64::from(a.first) * 65536 + u64::from(a.second)
}

// Reads the atom records into lent room. It is compiled apart from its caller: among all else that a verdict keeps at hand this loop would find no
// registers left.
#[inline(never)]
#[tactic(auto, using(crate::proofs::AtomRecords::readings))]
pub fn read_atoms(reader: &mut Reader, h: Header, room: &mut AtomRoom) -> Result<(), Refusal>
    requires { h.sizes.atoms ≤ 1024 }
    ensures same { reader.new.table ≡ reader.old.table }
    ensures says { WroteAtoms (atoms_from h h.sizes.atoms 0 reader.old.table.now reader.old.at) room.old result reader.new.at room.new }
{
    let first_ends = first_ends(h);
    let second_ends = second_ends(h);
    let mut least = 0; // the order is asked by one number, since three comparisons an atom are dearer
    for k in 0..usize::from(h.sizes.atoms) {
        let start = reader.at;
        let a = read_atom(reader, &first_ends, &second_ends)?;
        let place = key(a);
        if place < least {
            return Err(Refusal::NotAbove(start));
        }
        room.kinds[k] = a.kind;
        room.firsts[k] = a.first;
        room.seconds[k] = a.second;
        least = place + 1;
    }
    Ok(())
}

// The verdict on a table, and what is true in a position of it: read, judged and modelled in one go, since every call asks the table anew.
#![tactic(auto)]

ghost use Rattle.std.specs.Prelude.{◌≡◌, List, ℕ, ◌≤◌, length, get_or};
ghost use Rattle.gdl.specs.Flags.{on};
ghost use Rattle.gdl.specs.Game.{Game};
ghost use Rattle.gdl.specs.Kinds.{kind_number};
ghost use Rattle.gdl.specs.Computed.{model, reach_of};
ghost use Rattle.rules.specs.Judged.{judge};
ghost use Rattle.table.specs.Says.{blank_arrays};
ghost use Rattle.truth.specs.Marks.{marks_of};
ghost use Rattle.verdict.specs.Consulted.{found, found_in, nothing_learnt, Learns, examined, Fit};
ghost use Rattle.verdict.specs.Laid.{AtomsUsed, ClausesUsed};
ghost use Rattle.verdict.specs.Weighed.{Weighs};

use gdl::arrays::{AtomArrays, ClauseArrays};
use gdl::kinds::Kind;
use refusals::Refusal;
use table::header::{Header, Players, Sizes};
use table::tables::{Arrays, AtomRoom, ClauseRoom, Read, blank_arrays, read_table};

// The atoms of a table, of the room that holds them.
fn used_atoms(room: &AtomRoom, atoms: u16) -> AtomArrays
    requires { atoms ≤ 1024 }
    ensures { AtomsUsed atoms room.now result }
{
    let n = usize::from(atoms);
    AtomArrays {
        kinds: &room.kinds[..n],
        firsts: &room.firsts[..n],
        seconds: &room.seconds[..n],
    }
}

// The clauses of a table, of the room that holds them.
fn used_clauses(room: &ClauseRoom, clauses: u16) -> ClauseArrays
    requires { (clauses ≤ 2048) × (get_or room.now.starts clauses 0 ≤ 8192) }
    ensures { ClausesUsed clauses room.now result }
{
    let n = usize::from(clauses);
    let m = usize::from(room.starts[n]);
    ClauseArrays {
        heads: &room.heads[..n],
        starts: &room.starts[..n + 1],
        literals: &room.literals[..m],
    }
}

// What a table that breaks no rule is: what was read of it beside its arrays, and the first number above its levels.
#[derive(Clone, Copy)]
struct Weighed {
    read: Read,
    top: u16,
}

// Reads a table into lent arrays and judges it. Every call begins so.
fn weigh(s: &[u8], arrays: &mut Arrays, levels: &mut [u16; 1024]) -> Result<Weighed, Refusal>
    requires { arrays.old ≡ blank_arrays }
    ensures { Weighs (judge s.now) result arrays.new levels.new }
{
    let read = read_table(s, arrays)?;
    let arrays = &*arrays;
    let atoms = used_atoms(&arrays.atoms, read.header.sizes.atoms);
    let clauses = used_clauses(&arrays.clauses, read.clauses);
    let owners = &arrays.clauses.owners[..clauses.literals.len()];
    let seats = usize::from(read.header.players.seats);
    let top = judge::judge_arrays(&atoms, &clauses, owners, seats, levels)?;
    Ok(Weighed { read, top })
}

// What a call learns from an accepted table: its header, its atoms, and a flag for each. It is lent to `consult` and `trace`, which write it: 7 KB that a
// function answered would be copied on the way.
#[derive(Clone, Copy)]
pub struct Learnt {
    pub header: Header,
    pub atoms: AtomRoom,
    pub flags: [u8; 1024],
}

// Nothing is learnt yet.
pub fn nothing_learnt() -> Learnt
    ensures { result ≡ nothing_learnt }
{
    Learnt {
        header: Header {
            players: Players {
                claim: 0,
                seats: 0,
                chance: 0,
            },
            sizes: Sizes {
                fluents: 0,
                moves: 0,
                percepts: 0,
                atoms: 0,
            },
        },
        atoms: AtomRoom {
            kinds: [0; 1024],
            firsts: [0; 1024],
            seconds: [0; 1024],
        },
        flags: [0; 1024],
    }
}

// The verdict on a table and, where it is accepted, the model of a position and a joint choice.
pub fn consult<'s>(
    s: &[u8],
    position: &'s [u8; 512],
    choices: &'s [u16; 8],
    learnt: &mut Learnt,
) -> Result<(), Refusal>
    ensures { Learns (judge s.now) (λ G. model G position.now choices.now) result learnt.new }
{
    let mut arrays = blank_arrays();
    let mut levels = [0; 1024];
    let weighed = weigh(s, &mut arrays, &mut levels)?;
    let atoms = used_atoms(&arrays.atoms, weighed.read.header.sizes.atoms);
    let clauses = used_clauses(&arrays.clauses, weighed.read.clauses);
    learnt.flags = truth::model_of(position, choices, &atoms, &clauses, &levels, weighed.top);
    learnt.header = weighed.read.header;
    learnt.atoms = arrays.atoms;
    Ok(())
}

// The verdict on a table, and its header.
pub fn examine(s: &[u8]) -> Result<Header, Refusal>
    ensures { result ≡ examined (judge s.now) }
{
    let mut arrays = blank_arrays();
    let mut levels = [0; 1024];
    let weighed = weigh(s, &mut arrays, &mut levels)?;
    Ok(weighed.read.header)
}

// Which fields the atoms of a kind have that are true: place first * width + second is marked.
pub fn marks_in(learnt: &Learnt, kind: Kind, width: usize) -> [u8; 2048]
    requires { Fit (found learnt.now) × (width ≤ 256) }
    ensures { (G : Game) (X : List ℕ) → found learnt.now ≡ found_in G X → length G.atoms ≤ 1024 → result ≡ marks_of (kind_number kind) width G.atoms (on X) }
{
    let atoms = used_atoms(&learnt.atoms, learnt.header.sizes.atoms);
    truth::marks::marks_of(&atoms, &learnt.flags, kind, width)
}

// The verdict on a table and, where it is accepted, the reach of a seat. It stays beside `consult`: one function over a closure would have to
// say what the closure may be asked of the arrays, which is longer than the lines that the two have in common.
pub fn trace(s: &[u8], seat: u16, learnt: &mut Learnt) -> Result<(), Refusal>
    ensures { Learns (judge s.now) (λ G. reach_of G seat) result learnt.new }
{
    let mut arrays = blank_arrays();
    let mut levels = [0; 1024];
    let weighed = weigh(s, &mut arrays, &mut levels)?;
    let atoms = used_atoms(&arrays.atoms, weighed.read.header.sizes.atoms);
    let clauses = used_clauses(&arrays.clauses, weighed.read.clauses);
    learnt.flags = reach::reach_of(&atoms, &clauses, seat);
    learnt.header = weighed.read.header;
    learnt.atoms = arrays.atoms;
    Ok(())
}

// The rules of a valid table on arrays: the first refusal of 6 to 12, or the levels of the atoms. The atoms and the clauses travel as two: each rule asks
// another part of them to be shaped (heads, bodies, roles or edges), and a struct with one fact would ask all of it of every rule.
#![tactic(auto)]

ghost use Rattle.std.specs.Prelude.{◌≡◌};
ghost use Rattle.gdl.specs.Flags.{blank};
ghost use Rattle.rules.specs.Rules.{Ruled};
ghost use Rattle.judge.specs.Arrays.{HeldClauses, HeldEdges, HeldUses, ClausesShaped, EdgesShaped, UsesAsked};
ghost use Rattle.judge.specs.Judgement.{head_rules, use_rules, last_rules, RuledIn, Answers, Held, HoldsGame, LevelsOf, Judges, LastAsked, HeldLast};

mod clauses; // 6, 7 and 8
mod kinds;
mod leaning; // 9 and 10
mod seats; // 12

use edges::Edges;
use edges::uses::{Uses, index_uses};
use gdl::arrays::{AtomArrays, ClauseArrays};
use gdl::kinds::Kind;
use leaning::lowest_leaning;
use refusals::Refusal;

// 6 and 7.
fn judge_heads(atoms: &AtomArrays, clauses: &ClauseArrays) -> Result<(), Refusal>
    requires { ClausesShaped atoms.now clauses.now }
    ensures { Answers (HeldClauses atoms.now clauses.now) head_rules result }
{
    if let Some(i) = clauses::lowest_role_with_body(atoms, clauses) {
        return Err(Refusal::RoleWithBody(i));
    }
    if let Some(i) = clauses::lowest_never_head(atoms, clauses) {
        return Err(Refusal::NeverHead(i));
    }
    Ok(())
}

// 8, 9 and 10.
fn judge_uses(atoms: &AtomArrays, clauses: &ClauseArrays, edges: &Edges) -> Result<(), Refusal>
    requires { UsesAsked atoms.now clauses.now edges.now.from.now edges.now.to.now }
    ensures { Answers (HeldUses atoms.now clauses.now edges.now.from.now edges.now.to.now) use_rules result }
{
    if let Some(i) = clauses::lowest_misusing(atoms, clauses, edges) {
        return Err(Refusal::NeverInBody(i));
    }
    let given = [
        Kind::True,
        Kind::Does,
        Kind::Legal,
        Kind::Terminal,
        Kind::Goal,
    ];
    if let Some(p) = lowest_leaning(&[Kind::Init], &given, atoms.kinds, edges) {
        return Err(Refusal::InitRule(p));
    }
    let answered = [Kind::Legal, Kind::Terminal, Kind::Goal];
    if let Some(p) = lowest_leaning(&answered, &[Kind::Does], atoms.kinds, edges) {
        return Err(Refusal::DoesRule(p));
    }
    Ok(())
}

// 11: the levels in 1,024 places, or the place.
fn number_atoms(kinds: &[u16], edges: &Edges, levels: &mut [u16]) -> Result<u16, usize>
    requires { EdgesShaped kinds.now edges.now.from.now edges.now.to.now × (levels.old ≡ blank 1024) }
    ensures { LevelsOf (HeldEdges kinds.now edges.now.from.now edges.now.to.now) result levels.new }
{
    let n = kinds.len();
    levels::number_levels(edges, &mut levels[..n])
}

// 11 and 12, and the levels.
fn judge_last(
    atoms: &AtomArrays,
    clauses: &ClauseArrays,
    edges: &Edges,
    seats: usize,
    levels: &mut [u16; 1024],
) -> Result<u16, Refusal>
    requires { LastAsked atoms.now clauses.now edges.now.from.now edges.now.to.now × (levels.old ≡ blank 1024) }
    ensures { Judges (HeldLast atoms.now clauses.now edges.now.from.now edges.now.to.now seats) (RuledIn last_rules) result levels.new }
{
    let top = number_atoms(atoms.kinds, edges, levels).map_err(Refusal::NoLevels)?;
    match seats::lowest_seat(atoms, clauses, seats) {
        Some(s) => {
            *levels = [0; 1024];
            Err(Refusal::NoRoleFact(s))
        }
        None => Ok(top),
    }
}

// The arrays of a table that was read: the first rule that is broken, at the lowest place; or the first number above the levels of the atoms, which are
// the least and stand in lent room. `owners` are the heads of the literals' clauses.
pub fn judge_arrays(
    atoms: &AtomArrays,
    clauses: &ClauseArrays,
    owners: &[u16],
    seats: usize,
    levels: &mut [u16; 1024],
) -> Result<u16, Refusal>
    requires { HoldsGame atoms.now clauses.now owners.now seats }
    ensures { Judges (Held atoms.now clauses.now owners.now seats) Ruled result levels.new }
{
    *levels = [0; 1024];
    judge_heads(atoms, clauses)?;
    // The index of the uses, made here and lent from here on; filled afterwards, since a literal of anything but zeros is copied at this size.
    let mut uses = Uses {
        first: [0; 1024],
        next: [0; 8192],
    };
    uses.first.fill(8192);
    uses.next.fill(8192);
    index_uses(clauses.literals, &mut uses);
    let edges = Edges {
        from: owners,
        to: clauses.literals,
        uses: &uses,
    };
    judge_uses(atoms, clauses, &edges)?;
    judge_last(atoms, clauses, &edges, seats, levels)
}

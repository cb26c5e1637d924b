// The rule of seats: 12.
ghost use Rattle.std.specs.Prelude.{◌≡◌, not};
ghost use Rattle.rules.specs.Rules.{some, RoleMissing};
ghost use Rattle.judge.specs.Answers.{Searched};
ghost use Rattle.judge.specs.Arrays.{role_of, HeldRoles, RolesShaped, RoleAsked};

use gdl::arrays::{AtomArrays, ClauseArrays};
use gdl::kinds::Kind;

// Whether an atom is the role atom of the seat.
fn role_of(atoms: &AtomArrays, atom: u16, seat: usize) -> bool
    requires { RoleAsked atoms.now atom }
    ensures { result ≡ role_of atoms.now seat atom }
{
    let p = usize::from(atom);
    atoms.kinds[p] == Kind::Role.number() && usize::from(atoms.firsts[p]) == seat
}

// Whether no clause has the role atom of the seat as its head.
fn role_missing(atoms: &AtomArrays, clauses: &ClauseArrays, seat: usize) -> bool
    requires { RolesShaped atoms.now clauses.now }
    ensures { result ≡ not (some (role_of atoms.now seat) clauses.now.heads.now) }
{
    !clauses.heads.iter().any(|head| role_of(atoms, *head, seat))
}

// The lowest seat without a role fact: at most eight times through the clauses.
pub(super) fn lowest_seat(atoms: &AtomArrays, clauses: &ClauseArrays, seats: usize) -> Option<usize>
    requires { RolesShaped atoms.now clauses.now }
    ensures { Searched (HeldRoles atoms.now clauses.now seats) RoleMissing result }
{
    (0..seats).find(|s| role_missing(atoms, clauses, *s))
}

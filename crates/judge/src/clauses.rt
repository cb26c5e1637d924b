// The rules that a clause breaks by itself: 6, 7 and 8.
ghost use Rattle.std.specs.Prelude.{◌≡◌, ◌&&◌, [], ◌∷◌, ◌/◌, ◌≤◌, ltb, length, get_or};
ghost use Rattle.gdl.specs.Game.{init_kind, next_kind, sees_kind};
ghost use Rattle.rules.specs.Rules.{some, one_of, RoleBroken, HeadBroken, BodyBroken};
ghost use Rattle.judge.specs.Answers.{Searched};
ghost use Rattle.judge.specs.Arrays.{numbers, head_kind, role_with_body, never_head, never_in_body, HeldClauses, HeldUses, ClausesShaped, ClauseAsked, LiteralsOver, UsesAsked, AnyMisused};

use super::kinds::one_of;
use edges::Edges;
use gdl::arrays::{AtomArrays, ClauseArrays};
use gdl::kinds::Kind;

// The kind of a clause's head.
fn head_kind(atoms: &AtomArrays, clauses: &ClauseArrays, i: usize) -> u16
    requires { ClauseAsked atoms.now clauses.now i }
    ensures { result ≡ head_kind atoms.now clauses.now i }
{
    atoms.kinds[usize::from(clauses.heads[i])]
}

// 6: whether a clause has a role atom as its head, and literals.
fn role_with_body(atoms: &AtomArrays, clauses: &ClauseArrays, i: usize) -> bool
    requires { ClauseAsked atoms.now clauses.now i }
    ensures { result ≡ role_with_body atoms.now clauses.now i }
{
    head_kind(atoms, clauses, i) == Kind::Role.number() && clauses.starts[i] < clauses.starts[i + 1]
}

// 6: the lowest clause that breaks it.
pub(super) fn lowest_role_with_body(atoms: &AtomArrays, clauses: &ClauseArrays) -> Option<usize>
    requires { ClausesShaped atoms.now clauses.now }
    ensures { Searched (HeldClauses atoms.now clauses.now) RoleBroken result }
{
    (0..clauses.heads.len()).find(|i| role_with_body(atoms, clauses, *i))
}

// 7: whether a clause has an atom as its head that never is one.
fn never_head(atoms: &AtomArrays, clauses: &ClauseArrays, i: usize) -> bool
    requires { ClauseAsked atoms.now clauses.now i }
    ensures { result ≡ never_head atoms.now clauses.now i }
{
    one_of(&[Kind::True, Kind::Does], head_kind(atoms, clauses, i))
}

// 7: the lowest clause that breaks it.
pub(super) fn lowest_never_head(atoms: &AtomArrays, clauses: &ClauseArrays) -> Option<usize>
    requires { ClausesShaped atoms.now clauses.now }
    ensures { Searched (HeldClauses atoms.now clauses.now) HeadBroken result }
{
    (0..clauses.heads.len()).find(|i| never_head(atoms, clauses, *i))
}

// Whether some of the literals is of an atom of one of these kinds.
fn some_literal_of(kinds: &[u16], literals: &[u16], these: &[Kind]) -> bool
    requires { LiteralsOver kinds.now literals.now }
    ensures { result ≡ some (λ x. one_of (numbers these.now) (get_or kinds.now (x / 2) 0)) literals.now }
{
    literals
        .iter()
        .any(|x| one_of(these, kinds[usize::from(*x / 2)]))
}

// 8: whether a clause has a literal of an atom that never stands in a body.
fn never_in_body(atoms: &AtomArrays, clauses: &ClauseArrays, i: usize) -> bool
    requires { ClauseAsked atoms.now clauses.now i }
    ensures { result ≡ never_in_body atoms.now clauses.now i }
{
    let start = usize::from(clauses.starts[i]);
    let end = usize::from(clauses.starts[i + 1]);
    some_literal_of(
        atoms.kinds,
        &clauses.literals[start..end],
        &[Kind::Init, Kind::Next, Kind::Sees],
    )
}

// Whether an atom, of a kind by number (see `gdl::kinds::Kind`), never stands in a body and has a use: its first one is a literal of so many.
fn misused(kind: u16, first: u16, many: usize) -> bool
    ensures { result ≡ (ltb first many && one_of (init_kind ∷ next_kind ∷ sees_kind ∷ []) kind) }
{
    usize::from(first) < many && one_of(&[Kind::Init, Kind::Next, Kind::Sees], kind)
}

// Whether some atom is: one visit an atom.
fn any_misused(kinds: &[u16], first: &[u16; 1024], many: usize) -> bool
    requires { length kinds.now ≤ 1024 }
    ensures { AnyMisused kinds.now first.now many result }
{
    kinds
        .iter()
        .zip(first)
        .any(|(kind, first)| misused(*kind, *first, many))
}

// 8: the lowest clause that breaks it. The first uses tell whether there is one, so that an accepted table's literals are not read again.
pub(super) fn lowest_misusing(
    atoms: &AtomArrays,
    clauses: &ClauseArrays,
    edges: &Edges,
) -> Option<usize>
    requires { UsesAsked atoms.now clauses.now edges.now.from.now edges.now.to.now }
    ensures { Searched (HeldUses atoms.now clauses.now edges.now.from.now edges.now.to.now) BodyBroken result }
{
    if any_misused(atoms.kinds, &edges.uses.first, edges.to.len()) {
        return (0..clauses.heads.len()).find(|i| never_in_body(atoms, clauses, *i));
    }
    None
}

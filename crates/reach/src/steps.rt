// The steps of a reach, from an atom to those that it brings in.
ghost use Rattle.reach.specs.Steps.{Indexed};

use edges::uses::Chains;
use gdl::arrays::{AtomArrays, ClauseArrays};

// The arrays of a game, the clauses of each head, and the next and init atoms of each fluent.
#[derive(Clone, Copy)]
pub(super) struct Steps<'a> {
    pub(super) atoms: AtomArrays<'a>,
    pub(super) clauses: ClauseArrays<'a>,
    pub(super) heads: &'a Chains<1024, 2048>,
    pub(super) fluents: &'a Chains<512, 1024>,
    pub ghost indexed: { Indexed atoms clauses heads.now.first heads.now.next fluents.now.first fluents.now.next },
}

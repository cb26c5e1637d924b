// What a head brings in: the clauses of each atom, and the atoms of their bodies.
ghost use Rattle.std.specs.Prelude.{◌<◌, length};
ghost use Rattle.edges.specs.Marks.{Brought};
ghost use Rattle.reach.specs.Bodies.{InBody, InBodies, Unindexed, Indexed};

use super::steps::Steps;
use edges::uses::Chains;
use edges::worklist::Worklist;

// The clauses of each head, into a lent index that knows none yet: rising, until 2,048. From the last clause down: one turn for each.
pub(super) fn index_heads(heads: &[u16], index: &mut Chains<1024, 2048>)
    requires { Unindexed heads.now index.old.first index.old.next }
    ensures { Indexed heads.now index.new.first index.new.next }
{
    for c in (0..heads.len()).rev() {
        index.put(usize::from(heads[c]), c);
    }
}

// Marks the atoms of the body of clause `c`, negated or not.
fn bring_body(steps: &Steps, c: usize, work: &mut Worklist)
    requires { c < length steps.now.clauses.heads.now }
    ensures { Brought (InBody steps.now.clauses c) work.old work.new }
{
    let start = usize::from(steps.clauses.starts[c]);
    let end = usize::from(steps.clauses.starts[c + 1]);
    for &literal in &steps.clauses.literals[start..end] {
        let h = usize::from(literal / 2);
        work.mark(h);
    }
}

// Marks the atoms of the bodies of the clauses whose head is `p`: one turn for each of these clauses.
pub(super) fn bring_bodies(steps: &Steps, p: usize, work: &mut Worklist)
    requires { p < 1024 }
    ensures { Brought (InBodies steps.now.clauses p) work.old work.new }
{
    let mut c = usize::from(steps.heads.first[p]);
    while c < steps.clauses.heads.len() {
        bring_body(steps, c, work);
        c = usize::from(steps.heads.next[c]);
    }
}

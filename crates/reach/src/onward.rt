// What true(f) brings in: next(f) and init(f), if they are in the table.
ghost use Rattle.std.specs.Prelude.{◌≡◌, ◌<◌, length};
ghost use Rattle.edges.specs.Marks.{Brought};
ghost use Rattle.reach.specs.Onward.{is_onward, Follows, Unindexed, Indexed};

use super::steps::Steps;
use edges::uses::Chains;
use edges::worklist::Worklist;
use gdl::arrays::AtomArrays;
use gdl::kinds::Kind;

// Whether a kind is next or init: by number, as the arrays hold kinds (see `gdl::kinds::Kind`).
fn is_onward(kind: u16) -> bool
    ensures { result ≡ is_onward kind }
{
    kind == Kind::Next.number() || kind == Kind::Init.number()
}

// The next and init atoms of each fluent, into a lent index that knows none yet: rising, until 1,024. From the last atom down: one turn for each.
// A fluent from 512 on has no true(f).
pub(super) fn index_onward(atoms: &AtomArrays, index: &mut Chains<512, 1024>)
    requires { Unindexed atoms.now index.old.first index.old.next }
    ensures { Indexed atoms.now index.new.first index.new.next }
{
    for q in (0..atoms.kinds.len()).rev() {
        let f = usize::from(atoms.firsts[q]);
        if is_onward(atoms.kinds[q]) && f < 512 {
            index.put(f, q);
        }
    }
}

// Marks next(f) and init(f), where atom `p` is true(f).
pub(super) fn bring_onward(steps: &Steps, p: usize, work: &mut Worklist)
    requires { p < length steps.now.atoms.kinds.now }
    ensures { Brought (Follows steps.now.atoms p) work.old work.new }
{
    if steps.atoms.kinds[p] != Kind::True.number() {
        return;
    }
    let f = usize::from(steps.atoms.firsts[p]);
    let mut q = usize::from(steps.fluents.first[f]);
    while q < steps.atoms.kinds.len() {
        work.mark(q);
        q = usize::from(steps.fluents.next[q]);
    }
}

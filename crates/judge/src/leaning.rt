// The rules of dependence: 9 and 10.
ghost use Rattle.std.specs.Prelude.{◌≡◌, T};
ghost use Rattle.rules.specs.Rules.{Leans};
ghost use Rattle.rules.specs.Judged.{disjoint};
ghost use Rattle.edges.specs.Queue.{no_marks};
ghost use Rattle.judge.specs.Answers.{Searched};
ghost use Rattle.judge.specs.Arrays.{numbers, HeldEdges, EdgesShaped, MarksOf};

use super::kinds::one_of;
use edges::Edges;
use edges::marks::close_back;
use gdl::kinds::Kind;

// Marks each atom that is of one of those kinds or depends on one.
#[inline(always)]
fn mark_resting(those: &[Kind], kinds: &[u16], edges: &Edges, marks: &mut [u8; 1024])
    requires { EdgesShaped kinds.now edges.now.from.now edges.now.to.now × (marks.old ≡ no_marks) }
    ensures { MarksOf (HeldEdges kinds.now edges.now.from.now edges.now.to.now) (numbers those.now) marks.new }
{
    for (p, kind) in kinds.iter().enumerate() {
        marks[p] = u8::from(one_of(those, *kind));
    }
    close_back(edges, marks, kinds.len());
}

// The lowest atom of one of these kinds that depends on one of those, which are other kinds. Inlined, with the test of a kind, so that the few kinds of
// each call are known where every atom is asked.
#[inline(always)]
pub(super) fn lowest_leaning(
    these: &[Kind],
    those: &[Kind],
    kinds: &[u16],
    edges: &Edges,
) -> Option<usize>
    requires { EdgesShaped kinds.now edges.now.from.now edges.now.to.now × T (disjoint (numbers these.now) (numbers those.now)) }
    ensures { Searched (HeldEdges kinds.now edges.now.from.now edges.now.to.now) (Leans (numbers these.now) (numbers those.now)) result }
{
    let mut marks = [0; 1024];
    mark_resting(those, kinds, edges, &mut marks);
    (0..kinds.len()).find(|p| one_of(these, kinds[*p]) && marks[*p] == 1)
}

// The closure: the nodes that depend on marked ones are marked too, by a worklist.
ghost use Rattle.edges.specs.Closure.{Back, ClosedBack};
ghost use Rattle.edges.specs.Marks.{Turn, Visited};
ghost use Rattle.edges.specs.Queue.{Seeded};

use super::Edges;
use super::worklist::Worklist;

// Marks the starts of the edges that end at the node in place `at` of the queue: one turn for each of these edges.
fn visit(edges: &Edges, work: &mut Worklist, at: usize)
    requires { Turn (Back edges.now.from.now edges.now.to.now) work.old at }
    ensures { Visited (Back edges.now.from.now edges.now.to.now) work.old at work.new }
{
    let p = usize::from(work.queue[at]);
    let mut k = usize::from(edges.uses.first[p]);
    while k < edges.to.len() {
        let h = usize::from(edges.from[k]);
        work.mark(h);
        k = usize::from(edges.uses.next[k]);
    }
}

// Marks, with the marked nodes, which stand below `size`, every node that depends on one. A node is queued when it is marked first: at most 1,024 turns,
// and each edge is followed in at most one of them. `size` stands beside the marks, since memory is fixed: they are 1,024 however many nodes there are.
pub fn close_back(edges: &Edges, marks: &mut [u8; 1024], size: usize)
    requires { Seeded marks.old size }
    ensures { ClosedBack edges.now.from.now edges.now.to.now marks.old marks.new }
{
    let mut work = Worklist {
        marks: *marks,
        queue: [0; 1024],
        many: 0,
    };
    work.gather(size);
    let mut at: usize = 0;
    while at < work.many {
        visit(edges, &mut work, at);
        at += 1;
    }
    *marks = work.marks;
}

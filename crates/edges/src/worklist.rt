// Marks on nodes, and a queue in which each marked node stands once.
ghost use Rattle.edges.specs.Queue.{Queue};

// The marks, and the queue of `many` marked nodes. An array with its length beside it, since memory is fixed; marks are 0 or 1, as the flags of a
// model and of a reach are (`Closes`, `Reached`).
#[derive(Drop)]
pub struct Worklist {
    pub marks: [u8; 1024],
    pub queue: [u16; 1024],
    pub many: usize,
    pub ghost queued: { Queue marks queue many },
}

impl Worklist {
    ghost use Rattle.std.specs.Prelude.{◌<◌};
    ghost use Rattle.edges.specs.Marks.{Marked, Pushable, Pushed, Ungathered, Gathered};

    // Marks a node, and puts it at the end of the queue, if it was not marked.
    pub fn mark(&mut self, h: usize)
        requires { h < 1024 }
        ensures { Marked h self.old self.new }
    {
        if self.marks[h] == 1 {
            return;
        }
        self.marks[h] = 1;
        self.push(h);
    }

    // Puts a marked node at the end of the queue.
    #[tactic(auto, using(crate::proofs::Marking::pushes))]
    fn push(&mut self, p: usize)
        requires { Pushable p self.old }
        ensures { Pushed p self.old self.new }
    {
        self.queue[self.many] = p as u16;
        self.many += 1;
    }

    // Queues all marked nodes. They stand below `size`, which is beside the marks since these are of a fixed size.
    pub(super) fn gather(&mut self, size: usize)
        requires { Ungathered self.old size }
        ensures { Gathered self.old.marks self.new size }
    {
        for p in 0..size {
            if self.marks[p] == 1 {
                self.push(p);
            }
        }
    }
}

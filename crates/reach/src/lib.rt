// What reaches a seat: "the least set of atoms that holds every sees, legal and goal atom of the seat and the terminal atom; holds each
// body atom of a clause whose head it holds; and, where it holds true(f), holds next(f) and init(f)", in
// time linear in the clauses and atoms, and in the literals of what is reached.
#![tactic(auto)]

mod bodies;
mod onward;
mod seeds;
mod steps;

ghost use Rattle.gdl.specs.Game.{Game};
ghost use Rattle.edges.specs.Closure.{Closes};
ghost use Rattle.edges.specs.Marks.{Visited};
ghost use Rattle.reach.specs.Promise.{Laid, Ready, Reached};
ghost use Rattle.reach.specs.Steps.{Brings, Visit, Following};

use edges::uses::Chains;
use edges::worklist::Worklist;
use gdl::arrays::{AtomArrays, ClauseArrays};
use steps::Steps;

// Marks what the atom in place `at` of the queue brings in.
fn visit(steps: &Steps, work: &mut Worklist, at: usize)
    requires { Visit steps.now.atoms steps.now.clauses work.old at }
    ensures { Visited (Brings steps.now.atoms steps.now.clauses) work.old at work.new }
{
    let p = usize::from(work.queue[at]);
    onward::bring_onward(steps, p, work);
    bodies::bring_bodies(steps, p, work);
}

// Marks whatever the marked atoms bring in. An atom is queued when it is marked first: at most 1,024 turns.
fn follow(steps: &Steps, work: &mut Worklist)
    requires { Following steps.now.atoms work.old }
    ensures { Closes (Brings steps.now.atoms steps.now.clauses) work.old.marks work.new.marks }
{
    let mut at: usize = 0;
    while at < work.many {
        visit(steps, work, at);
        at += 1;
    }
}

// A flag for each atom, 1 for those of the seat's reach, for whatever game the arrays hold; 0 after the last atom. Each of at most 2,048 clauses and
// 1,024 atoms is indexed once; the literals of a clause are visited once, if its head is reached.
pub fn reach_of(atoms: &AtomArrays, clauses: &ClauseArrays, seat: u16) -> [u8; 1024]
    requires { Ready atoms.now clauses.now }
    ensures { (G : Game) → Laid G atoms.now clauses.now → Reached G seat result }
{
    let mut work = Worklist {
        marks: [0; 1024],
        queue: [0; 1024],
        many: 0,
    };
    seeds::sow(atoms, seat, &mut work);
    // Filled afterwards, here and below, since a literal of anything but zeros is copied at this size.
    let mut heads = Chains {
        first: [0; 1024],
        next: [0; 2048],
    };
    heads.first.fill(2048);
    heads.next.fill(2048);
    bodies::index_heads(clauses.heads, &mut heads);
    let mut fluents = Chains {
        first: [0; 512],
        next: [0; 1024],
    };
    fluents.first.fill(1024);
    fluents.next.fill(1024);
    onward::index_onward(atoms, &mut fluents);
    let steps = Steps {
        atoms: *atoms,
        clauses: *clauses,
        heads: &heads,
        fluents: &fluents,
    };
    follow(&steps, &mut work);
    work.marks
}

// The dependency graph in two arrays, and the nodes that depend on marked ones, in time linear in the edges.
// That the closure ends within 1,024 visits of nodes is proved; the counts of edges in the comments are read off the loops.
#![tactic(auto)]

ghost use Rattle.edges.specs.Uses.{Index};

pub mod marks;
pub mod uses;
pub mod worklist;

use uses::Uses;

// The edges of the graph, each from an owner to a literal's atom, and their index by these ends. Two arrays, as a table's room holds them.
#[derive(Clone, Copy)]
pub struct Edges<'a> {
    pub from: &'a [u16],
    pub to: &'a [u16],
    pub uses: &'a Uses,
    pub ghost indexed: { Index from.now to.now uses.now.first uses.now.next },
}

// The index of uses: where each node is the end of an edge.
ghost use Rattle.std.specs.Prelude.{◌<◌, ◌^◌};
ghost use Rattle.edges.specs.Uses.{Unindexed, Indexed, Put};

// Places by the nodes that they use: `first` of the node, then `next` of each place, rising, until a number past all places. Numbers in place of
// references, since memory is fixed.
#[derive(Drop)]
pub struct Chains<const NODES: usize, const PLACES: usize> {
    pub first: [u16; NODES],
    pub next: [u16; PLACES],
}

impl<const NODES: usize, const PLACES: usize> Chains<NODES, PLACES> {
    // Puts a place before the places that are known to use the node already.
    pub fn put(&mut self, node: usize, place: usize)
        requires in_nodes { node < NODES }
        requires in_places { place < PLACES }
        requires fits { place < 2 ^ 16 }
        ensures { Put node place self.old.first self.old.next self.new.first self.new.next }
    {
        self.next[place] = self.first[node];
        self.first[node] = place as u16;
    }
}

pub type Uses = Chains<1024, 8192>;

// The edges that end at a node, into a lent index that knows none yet. Each edge is put before the uses of its end that are known already, from the
// last edge down: one turn for each edge.
pub fn index_uses(to: &[u16], uses: &mut Uses)
    requires { Unindexed to.now uses.old.first uses.old.next }
    ensures { Indexed to.now uses.new.first uses.new.next }
{
    for k in (0..to.len()).rev() {
        uses.put(usize::from(to[k] / 2), k);
    }
}

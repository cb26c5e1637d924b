// The atoms that a seat's reach starts from: "every sees, legal and goal atom of the seat and the terminal atom".
ghost use Rattle.std.specs.Prelude.{◌≡◌, length};
ghost use Rattle.gdl.specs.Reach.{is_seed};
ghost use Rattle.reach.specs.Seeds.{Unsown, Sown};

use edges::worklist::Worklist;
use gdl::arrays::AtomArrays;
use gdl::kinds::Kind;

// Whether the reach of the seat starts from an atom, by its kind and first field, which decide. The arrays hold kinds by the table's numbers.
fn is_seed(kind: u16, first: u16, seat: u16) -> bool
    ensures { result ≡ is_seed seat (record { kind = kind; first = first; second = 0 }) }
{
    let own = first == seat;
    kind == Kind::Terminal.number()
        || own
            && (kind == Kind::Sees.number()
                || kind == Kind::Legal.number()
                || kind == Kind::Goal.number())
}

// Marks and queues these atoms: one visit of each of at most 1,024 atoms.
pub(super) fn sow(atoms: &AtomArrays, seat: u16, work: &mut Worklist)
    requires { Unsown atoms.now work.old }
    ensures { Sown atoms.now seat (length atoms.now.kinds.now) work.new }
{
    for p in 0..atoms.kinds.len() {
        if is_seed(atoms.kinds[p], atoms.firsts[p], seat) {
            work.mark(p);
        }
    }
}

// What flags say of the atoms: which fields the atoms of a kind have that are in.
ghost use Rattle.std.specs.Prelude.{◌≡◌};
ghost use Rattle.gdl.specs.Flags.{on};
ghost use Rattle.gdl.specs.Kinds.{kind_number};
ghost use Rattle.truth.specs.Reading.{atoms_in};
ghost use Rattle.truth.specs.Marks.{marks_of, Markable};

use gdl::arrays::AtomArrays;
use gdl::kinds::Kind;

// Marks place first * width + second for each atom of the kind whose flag is 1; a place from 2,048 on is passed over. One visit an atom.
#[tactic(auto, using(crate::proofs::Marked::markings))]
pub fn marks_of(atoms: &AtomArrays, flags: &[u8; 1024], kind: Kind, width: usize) -> [u8; 2048]
    requires { Markable atoms.now width }
    ensures { result ≡ marks_of (kind_number kind) width (atoms_in atoms.now) (on flags.now) }
{
    let mut marks = [0; 2048];
    for i in 0..atoms.kinds.len() {
        let at = usize::from(atoms.firsts[i]) * width + usize::from(atoms.seconds[i]);
        if atoms.kinds[i] == kind.number() && flags[i] == 1 && at < 2048 {
            marks[at] = 1;
        }
    }
    marks
}

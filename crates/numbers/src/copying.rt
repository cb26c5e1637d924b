// Bytes copied from a part into lent room: the lines of the protocol are put together so.
ghost use Rattle.std.specs.Prelude.{◌≡◌, ◌+◌, ◌≤◌, length};
ghost use Rattle.std.proofs.lemmas.List.Edits.{sets};

// Copies a part into a room, from a place on. A function of its own beside `copy_from_slice`: its clause says what the whole room holds then.
#[tactic(auto, using(crate::proofs::Storing::stores))]
pub fn copy(part: &[u8], room: &mut [u8], at: usize)
    requires { at + length part.now ≤ length room.old }
    ensures { room.new ≡ sets room.old at part.now }
{
    room[at..at + part.len()].copy_from_slice(part);
}

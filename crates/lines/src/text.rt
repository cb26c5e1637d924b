// Bytes put into lent room one after another, and the bytes at its front.
ghost use Rattle.std.specs.Prelude.{◌≡◌, take};
ghost use Rattle.numbers.specs.Writing.{written_at};

use numbers::copying::copy;

// Puts bytes at a place of the room, and answers the place after them; where they do not fit the room stays as it was, and the
// answer is the place itself.
#[tactic(auto, using(crate::proofs::Putting::puts))]
pub fn put_text(room: &mut [u8], at: usize, part: &[u8]) -> usize
    ensures { (result, room.new) ≡ written_at part.now at room.old }
{
    if room.len() < at || room.len() - at < part.len() {
        return at;
    }
    copy(part, room, at);
    at + part.len()
}

// The first bytes of the room, so many or all.
pub fn first_bytes(room: &[u8], many: usize) -> &[u8]
    ensures { result.now ≡ take many room.now }
{
    let end = many.min(room.len());
    &room[..end]
}

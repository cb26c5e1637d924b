// One read.
ghost use Rattle.std.specs.Prelude.{◌≤◌, length, IfOk};

use std::io;
use std::io::Read;

// Reads once into the free room behind what is there, and answers how many bytes there are then.
// `have` stands beside the room: with the free part lent alone both callers would add the two up themselves, which is no plainer.
pub fn read_more<R: Read>(reader: &mut R, room: &mut [u8], have: usize) -> io::Result<usize>
    requires { have ≤ length room.old }
    ensures { IfOk result (λ n. (have ≤ n) × (n ≤ length room.old)) }
{
    let read = reader.read(&mut room[have..])?;
    Ok(have + read)
}

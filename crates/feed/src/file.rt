// A file read whole.
ghost use Rattle.std.specs.Prelude.{◌≡◌, ◌≤◌, length, IfOk};
ghost use Rattle.feed.specs.declared.file.LoadFault.TheVariants.{NoFile};
ghost use Rattle.feed.specs.File.{filled, Loads};

use crate::reading::read_more;
use lines::text::put_text;
use std::io::Read;
use std::rt::Files;
use std::str::Utf8Error;
use std::{fs, io};

// Why the bytes of a file are not in the room.
#[derive(Clone, Copy, PartialEq, Eq, Debug)]
pub enum LoadFault {
    NoFile,
    TooMany,
}

// A file that cannot be opened or read, and a name that is no text, are no file.
impl From<io::Error> for LoadFault {
    ghost from_gives = { λ _ fault. fault ≡ NoFile };

    fn from(_error: io::Error) -> LoadFault {
        LoadFault::NoFile
    }
}

impl From<Utf8Error> for LoadFault {
    ghost from_gives = { λ _ fault. fault ≡ NoFile };

    fn from(_error: Utf8Error) -> LoadFault {
        LoadFault::NoFile
    }
}

// Reads until the room is full or the file ends, and answers how many bytes there are.
fn read_whole<R: Read>(reader: &mut R, room: &mut [u8]) -> io::Result<usize>
    ensures { IfOk result (λ have. have ≤ length room.old) }
{
    let mut have: usize = 0;
    while have < room.len() {
        let next = read_more(reader, room, have)?;
        if next == have {
            return Ok(have);
        }
        have = next;
    }
    Ok(have)
}

// Puts bytes at the front of the room, at most 70,000.
#[tactic(auto, using(crate::proofs::Loading::fillings))]
fn fill(bytes: &[u8], room: &mut [u8]) -> Result<usize, LoadFault>
    ensures { (result, room.new) ≡ filled bytes.now room.old }
{
    if 70000 < bytes.len() || room.len() < bytes.len() {
        return Err(LoadFault::TooMany);
    }
    put_text(room, 0, bytes);
    Ok(bytes.len())
}

// Puts the bytes of a file, at most 70,000, at the front of the room, which stays as it was if they cannot be had or do not fit.
#[tactic(auto, using(crate::proofs::Loading::fillings))]
pub fn load<F: Files>(files: &F, name: &[u8], room: &mut [u8]) -> Result<usize, LoadFault>
    ensures { Loads room.old (result, room.new) }
{
    // a name has no byte above 127; the library itself refuses a byte 0
    if !name.is_ascii() {
        return Err(LoadFault::NoFile);
    }
    let path = str::from_utf8(name)?;
    let mut file = fs::open(files, path)?;
    let mut bytes = [0u8; 70001];
    let have = read_whole(&mut file, &mut bytes)?;
    fill(&bytes[0..have], room)
}

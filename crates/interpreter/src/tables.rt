// The commands that set the table.
ghost use Rattle.std.specs.Prelude.{◌≡◌};
ghost use Rattle.lines.specs.Hex.{hex_into};
ghost use Rattle.interpreter.specs.Tables.{hex_size, TableLoads};

use commands::fault::{Fault, hex_fault};
use feed::file::{LoadFault, load};
use lines::hex::read_hex;
use std::rt::Files;

// Puts the table of a word at the front of its room, and answers how long it is.
pub fn set_table(bytes: &[u8], table: &mut [u8]) -> Result<usize, Fault>
    ensures size { result ≡ hex_size (hex_into bytes.now table.old).0 }
    ensures table_after { table.new ≡ (hex_into bytes.now table.old).1 }
{
    read_hex(bytes, table).map_err(|fault| hex_fault(fault, Fault::TableBytes))
}

// The same of a file.
pub fn load_table<F: Files>(files: &F, name: &[u8], table: &mut [u8]) -> Result<usize, Fault>
    ensures { TableLoads table.old table.new result }
{
    load(files, name, table).map_err(|fault| match fault {
        LoadFault::NoFile => Fault::NoFile,
        LoadFault::TooMany => Fault::TableBytes,
    })
}

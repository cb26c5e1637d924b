// A reading place in a table: it holds the lent table and its offset, and goes on from number to number, and so from record to record.
#![tactic(auto)]

ghost use Rattle.std.specs.Prelude.{◌≡◌};
ghost use Rattle.reader.specs.Reading.{after, found_at, reader_at, read_next, clause_start};

use numbers::{Fault, Item};

#[derive(Clone, Copy)]
pub struct Reader<'a> {
    pub table: &'a [u8],
    pub at: usize,
}

// What stands at a place of a table, and the place to go on from: `found_at` of specs/Reading.antt has it at a fault too, so it stands beside the Result.
#[derive(Clone, Copy)]
pub struct Found {
    pub number: Result<Item, Fault>,
    pub next: usize,
}

// A fault keeps the place, so that the refusal can name it.
fn after(number: Result<Item, Fault>, at: usize) -> usize
    ensures { result ≡ after number at }
{
    number.map_or(at, |item| item.next)
}

// The work, on a plain table and a place: whoever has these needs no reader.
pub fn step(table: &[u8], at: usize) -> Found
    ensures { result ≡ found_at table.now at }
{
    let number = numbers::read_number(table, at);
    let next = after(number, at);
    Found { number, next }
}

impl<'a> Reader<'a> {
    // A reader of a lent table, at a place.
    pub fn start(table: &'a [u8], at: usize) -> Reader<'a>
        ensures { result ≡ reader_at table.entry at }
    {
        Reader { table, at }
    }

    // Reads the number at the reader's place, and moves the reader on.
    pub fn next(&mut self) -> Result<Item, Fault>
        ensures { (result, self.new) ≡ read_next self.old }
    {
        let found = step(self.table, self.at);
        self.at = found.next;
        found.number
    }

    // Where the reader stands.
    pub fn place(self) -> usize
        ensures { result ≡ self.entry.at }
    {
        self.at
    }
}

// How a clause record begins: the numbers of its head and of its count of literals, and the place where the literals start.
// The two stand as they were read, faults too, as `clause_start` of specs/Reading.antt has them.
#[derive(Clone, Copy)]
pub struct ClauseStart {
    pub head: Result<Item, Fault>,
    pub count: Result<Item, Fault>,
    pub literals: usize,
}

// From a plain table to a reader and back: whoever calls it needs no reader.
pub fn clause_start(table: &[u8], at: usize) -> ClauseStart
    ensures { result ≡ clause_start table.now at }
{
    let mut reader = Reader::start(table, at);
    let head = reader.next();
    let count = reader.next();
    let literals = reader.place();
    ClauseStart {
        head,
        count,
        literals,
    }
}

// House numbers: one to three bytes, seven bits each, lowest group first. Reading one at a place, and writing one there.
#![tactic(auto)]

ghost use Rattle.std.specs.Prelude.{◌≡◌, ◌+◌, ◌%◌};
ghost use Rattle.numbers.specs.Number.{run_at, number_of_two, number_of_three, number_at};
ghost use Rattle.numbers.specs.Writing.{number_bytes, written_at};

pub mod copying;

// A number that was read, and the place after it.
#[derive(Clone, Copy, PartialEq, Eq, Debug)]
pub struct Item {
    pub value: u16,
    pub next: usize,
}

// Why no number stands at a place: the input cuts it off; the run of bytes is not the shortest form of its number; it says more
// than 65,535.
#[derive(Clone, Copy, PartialEq, Eq, Debug)]
pub enum Fault {
    Cut,
    Long,
    Large,
}

// The bytes of a number, by their count. The top bit is set on every byte but the last. An enum of its own: `run_at` and `number_of`
// of specs/Number.antt are defined over its four cases, and a cut is one length of a run among others, no failure to read one.
#[derive(Clone, Copy)]
pub enum Run {
    Cut,
    One(u16),
    Two(u16, u16),
    Three(u16, u16, u16),
}

#[tactic(auto, using(crate::proofs::Reading::runs))]
fn run_at(s: &[u8], at: usize) -> Run
    ensures { result ≡ run_at s.now at }
{
    if s.len() <= at {
        return Run::Cut;
    }
    let a = u16::from(s[at]);
    if a < 128 {
        return Run::One(a);
    }
    if s.len() <= at + 1 {
        return Run::Cut;
    }
    let b = u16::from(s[at + 1]);
    if b < 128 {
        return Run::Two(a, b);
    }
    if s.len() <= at + 2 {
        return Run::Cut;
    }
    Run::Three(a, b, u16::from(s[at + 2]))
}

#[tactic(auto, using(crate::proofs::Reading::values))]
fn two(a: u16, b: u16, next: usize) -> Result<Item, Fault>
    ensures { result ≡ number_of_two a b next }
{
    if b == 0 {
        return Err(Fault::Long);
    }
    Ok(Item {
        value: a % 128 + 128 * (b % 128),
        next,
    })
}

#[tactic(auto, using(crate::proofs::Reading::values))]
fn three(a: u16, b: u16, c: u16, next: usize) -> Result<Item, Fault>
    ensures { result ≡ number_of_three a b c next }
{
    if c == 0 {
        return Err(Fault::Long);
    }
    if 128 <= c {
        return Err(Fault::Large);
    }
    let value = u32::from(a % 128) + 128 * u32::from(b % 128) + 16384 * u32::from(c % 128);
    if 65535 < value {
        return Err(Fault::Large);
    }
    Ok(Item {
        value: value as u16,
        next,
    })
}

#[tactic(auto, using(crate::proofs::Reading::places, crate::proofs::Reading::withins))]
pub fn read_number(s: &[u8], at: usize) -> Result<Item, Fault>
    ensures { result ≡ number_at s.now at }
{
    match run_at(s, at) {
        Run::Cut => Err(Fault::Cut),
        Run::One(a) => Ok(Item {
            value: a % 128,
            next: at + 1,
        }),
        Run::Two(a, b) => two(a, b, at + 2),
        Run::Three(a, b, c) => three(a, b, c, at + 3),
    }
}

// A group of seven bits, with the top bit that says that another follows.
fn more(group: u16) -> u8
    ensures { result ≡ 128 + group % 128 }
{
    (128 + group % 128) as u8
}

// The last group.
fn last(group: u16) -> u8
    ensures { result ≡ group % 128 }
{
    (group % 128) as u8
}

// Writes a number at a place of the room, and answers the place after it; where it does not fit the room stays as it was, and the
// answer is the place itself.
#[tactic(auto, using(crate::proofs::Writing::writings))]
pub fn write_number(room: &mut [u8], at: usize, v: u16) -> usize
    ensures { (result, room.new) ≡ written_at (number_bytes v) at room.old }
{
    if room.len() <= at {
        return at;
    }
    let left = room.len() - at;
    if v < 128 {
        room[at] = last(v);
        return at + 1;
    }
    if left < 2 {
        return at;
    }
    if v < 16384 {
        room[at] = more(v);
        room[at + 1] = last(v / 128);
        return at + 2;
    }
    if left < 3 {
        return at;
    }
    room[at] = more(v);
    room[at + 1] = more(v / 128);
    room[at + 2] = last(v / 16384);
    at + 3
}

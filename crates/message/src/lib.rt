// The message of a seat, written into lent room in house numbers.
#![tactic(auto)]

ghost use Rattle.std.specs.Prelude.{◌≡◌, ◌≤◌, length};
ghost use Rattle.gdl.specs.Flags.{on};
ghost use Rattle.numbers.specs.Writing.{written};
ghost use Rattle.gdl.specs.Lists.{those};
ghost use Rattle.message.specs.Message.{counted, head_numbers, message_of, Fits};

// How many of the flags are 1. At most 256 of them, here and in the two functions below: a slice's length is no type.
#[tactic(auto, using(crate::proofs::Lists::counted_ones))]
fn count_those(flags: &[u8]) -> u16
    requires { length flags.now ≤ 256 }
    ensures { result ≡ length (those (length flags.now) (on flags.now)) }
{
    flags.iter().filter(|flag| **flag == 1).count() as u16
}

// Writes the number of each flag that is 1, ascending, and answers the place after them.
#[tactic(auto, using(crate::proofs::Lists::puttings))]
fn put_those(room: &mut [u8], at: usize, flags: &[u8]) -> usize
    requires { length flags.now ≤ 256 }
    ensures { (result, room.new) ≡ written (those (length flags.now) (on flags.now)) (at, room.old) }
{
    let mut next = at;
    for (i, flag) in flags.iter().enumerate() {
        if *flag == 1 {
            next = numbers::write_number(room, next, i as u16);
        }
    }
    next
}

// Writes "count of .. and the .. ascending".
#[tactic(auto, using(crate::proofs::Lists::puts_counted))]
fn put_counted(room: &mut [u8], at: usize, flags: &[u8]) -> usize
    requires { length flags.now ≤ 256 }
    ensures { (result, room.new) ≡ written (counted (those (length flags.now) (on flags.now))) (at, room.old) }
{
    let many = count_those(flags);
    let next = numbers::write_number(room, at, many);
    put_those(room, next, flags)
}

// What a message says beside its lists, and how many percepts and moves there are.
#[derive(Clone, Copy)]
pub struct Sheet {
    pub seat: u16,
    pub round: u16,
    pub over: bool,
    pub percepts: u16,
    pub moves: u16,
}

// "seat; round; 1 if over else 0"
#[tactic(auto, using(crate::proofs::Lists::head_written))]
fn put_head(room: &mut [u8], sheet: Sheet) -> usize
    ensures { (result, room.new) ≡ written (head_numbers sheet) (0, room.old) }
{
    let a = numbers::write_number(room, 0, sheet.seat);
    let b = numbers::write_number(room, a, sheet.round);
    numbers::write_number(room, b, u16::from(sheet.over))
}

// Writes the message of a seat and answers its length. The flags of percepts, moves and goals are at seat * 256 and on; of the moves none
// is told when the game is over, and of the goals none before.
pub fn write_message(
    room: &mut [u8],
    sheet: Sheet,
    percepts: &[u8; 2048],
    legal: &[u8; 2048],
    goals: &[u8; 2048],
) -> usize
    requires { Fits sheet }
    ensures { (result, room.new) ≡ written (message_of sheet percepts.now legal.now goals.now) (0, room.old) }
{
    let start = usize::from(sheet.seat) * 256;
    let moves = if sheet.over { 0 } else { sheet.moves };
    let values = if sheet.over { 101 } else { 0 };
    let percepts = &percepts[start..start + usize::from(sheet.percepts)];
    let legal = &legal[start..start + usize::from(moves)];
    let goals = &goals[start..start + values];
    let a = put_head(room, sheet);
    let b = put_counted(room, a, percepts);
    let c = put_counted(room, b, legal);
    put_counted(room, c, goals)
}

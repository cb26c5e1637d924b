// What the check and the model say of a table.
use refusals::{Refusal, number_of, place_of};

// Whether the check gives this number.
pub fn is_numbered(table: &[u8], number: u8) -> bool {
    number_of(referee::check(table)) == number
}

// Whether the check gives this number and place.
pub fn is_refused(table: &[u8], number: u8, place: usize) -> bool {
    let refusal = referee::check(table);
    number_of(refusal) == number && place_of(refusal) == place
}

pub fn is_accepted(table: &[u8]) -> bool {
    is_refused(table, 0, 0)
}

// Whether an atom of an accepted table has this flag in the model of the empty position without moves.
pub fn is_flagged(table: &[u8], atom: usize, flag: u8) -> bool {
    let mut room = [255u8; 1024];
    referee::model(table, [0; 512], [0; 8], &mut room) == Refusal::Success
        && room.get(atom) == Some(&flag)
}

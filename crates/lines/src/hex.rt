// Bytes in hex, read from a word and written into an answer.
ghost use Rattle.std.specs.Prelude.{◌≡◌, true, ◌+◌, ◌*◌, ◌/◌, ◌%◌, ◌≤◌, ◌<◌, length};
ghost use Rattle.std.proofs.lemmas.List.Edits.{sets};
ghost use Rattle.numbers.specs.Writing.{written_at};
ghost use Rattle.lines.specs.Every.{every};
ghost use Rattle.lines.specs.Hex.{nibble, is_nibble, is_hex, bytes_of, hex_into, glyph, hex_digits, hex_text};

use crate::text::put_text;

// Why a word is not hex that the room holds.
#[derive(Clone, Copy, PartialEq, Eq, Debug)]
pub enum HexFault {
    NotHex,
    TooMany,
}

// What a digit counts, of either case; 16 for a byte that is no digit. No Option: every byte is tested before the first is read, and each
// would be unwrapped there.
#[tactic(auto, using(crate::proofs::Pairing::nibbles))]
fn nibble(b: u8) -> u8
    ensures { result ≡ nibble b }
{
    match b {
        b'0'..=b'9' => b - b'0',
        b'A'..=b'F' => b - b'A' + 10,
        b'a'..=b'f' => b - b'a' + 10,
        _ => 16,
    }
}

fn every_nibble(word: &[u8]) -> bool
    ensures { result ≡ every is_nibble word.now }
{
    word.iter().all(|b| nibble(*b) < 16)
}

#[tactic(auto, using(crate::proofs::Pairing::hexes))]
fn is_hex(word: &[u8]) -> bool
    ensures { result ≡ is_hex word.now }
{
    matches!(word, [b'-']) || (!word.is_empty() && word.len() % 2 == 0 && every_nibble(word))
}

// The byte of two digits.
fn joined(high: u8, low: u8) -> u8
    requires { (high < 16) × (low < 16) }
    ensures { result ≡ 16 * high + low }
{
    16 * high + low
}

#[tactic(auto, using(crate::proofs::Pairing::decodings))]
fn write_bytes(word: &[u8], room: &mut [u8])
    requires { (is_hex word.now ≡ true) × (length word.now / 2 ≤ length room.old) }
    ensures { room.new ≡ sets room.old 0 (bytes_of word.now) }
{
    for k in 0..word.len() / 2 {
        room[k] = joined(nibble(word[2 * k]), nibble(word[2 * k + 1]));
    }
}

// Writes the bytes of a word at the front of the room, and answers how many they are; where the word is not hex, or its bytes do not
// fit, the room stays as it was.
#[tactic(auto, using(crate::proofs::Pairing::readings))]
pub fn read_hex(word: &[u8], room: &mut [u8]) -> Result<usize, HexFault>
    ensures { (result, room.new) ≡ hex_into word.now room.old }
{
    if !is_hex(word) {
        return Err(HexFault::NotHex);
    }
    let many = word.len() / 2;
    if room.len() < many {
        return Err(HexFault::TooMany);
    }
    write_bytes(word, room);
    Ok(many)
}

// The byte of a digit below 16, in lower case.
#[tactic(auto, using(crate::proofs::Pairing::glyphs))]
fn glyph(d: u8) -> u8
    requires { d < 16 }
    ensures { result ≡ glyph d }
{
    if d < 10 { b'0' + d } else { b'a' + (d - 10) }
}

#[tactic(auto, using(crate::proofs::Pairing::encodings))]
fn write_digits(bytes: &[u8], room: &mut [u8], at: usize)
    requires { at + 2 * length bytes.now ≤ length room.old }
    ensures { room.new ≡ sets room.old at (hex_digits bytes.now) }
{
    for (k, b) in bytes.iter().enumerate() {
        room[at + 2 * k] = glyph(*b / 16);
        room[at + 2 * k + 1] = glyph(*b % 16);
    }
}

// Puts bytes in hex at a place of the room, and answers the place after them, as `put_text` does; `-` for none.
#[tactic(auto, using(crate::proofs::Pairing::hex_puts))]
pub fn put_hex(room: &mut [u8], at: usize, bytes: &[u8]) -> usize
    ensures { (result, room.new) ≡ written_at (hex_text bytes.now) at room.old }
{
    if bytes.is_empty() {
        return put_text(room, at, b"-");
    }
    if room.len() < at || (room.len() - at) / 2 < bytes.len() {
        return at;
    }
    write_digits(bytes, room, at);
    at + 2 * bytes.len()
}

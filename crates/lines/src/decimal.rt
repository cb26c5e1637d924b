// Decimal numbers, read from a word and written into an answer.
ghost use Rattle.std.specs.Prelude.{◌≡◌, ◌+◌, ◌*◌, ◌-◌, ◌≤◌, min};
ghost use Rattle.numbers.specs.Writing.{written_at};
ghost use Rattle.lines.specs.Every.{every};
ghost use Rattle.lines.specs.Decimal.{is_digit, value_of, decimal_of, digit_of, decimal_text, Digits};

use crate::text::put_text;

// Why a word is no number of at most 65,535.
#[derive(Clone, Copy, PartialEq, Eq, Debug)]
pub enum DecimalFault {
    NotDecimal,
    TooLarge,
}

fn every_digit(word: &[u8]) -> bool
    ensures { result ≡ every is_digit word.now }
{
    word.iter().all(|b| b.is_ascii_digit())
}

// A number with one more digit behind it, at most 65,536.
fn with_digit(n: u32, b: u8) -> u32
    requires { n ≤ 65536 }
    ensures { result ≡ min (10 * n + (b - 48)) 65536 }
{
    (10 * n + u32::from(b.saturating_sub(b'0'))).min(65536)
}

// The number that the digits make, or 65,536 where it is larger.
#[tactic(auto, using(crate::proofs::Valuing::values))]
fn value_up_to(word: &[u8]) -> u32
    ensures { result ≡ min (value_of word.now) 65536 }
{
    let mut n: u32 = 0;
    for b in word {
        n = with_digit(n, *b);
    }
    n
}

#[tactic(auto, using(crate::proofs::Valuing::sayings))]
pub fn read_decimal(word: &[u8]) -> Result<u16, DecimalFault>
    ensures { result ≡ decimal_of word.now }
{
    if word.is_empty() || !every_digit(word) {
        return Err(DecimalFault::NotDecimal);
    }
    let n = value_up_to(word);
    if n <= 65535 {
        return Ok(n as u16);
    }
    Err(DecimalFault::TooLarge)
}

// The byte of the last digit.
fn last_digit(x: u64) -> u8
    ensures { result ≡ digit_of x }
{
    b'0' + (x % 10) as u8
}

// Writes the digits of a number at the end of twenty bytes, and answers where they begin.
#[tactic(auto, using(crate::proofs::Spelling::spellings, crate::proofs::Spelling::not_first))]
fn spell(x: u64, digits: &mut [u8; 20]) -> usize
    ensures { Digits x result digits.new }
{
    let mut at: usize = 19;
    let mut rest = x;
    while 10 <= rest {
        digits[at] = last_digit(rest);
        rest /= 10;
        at -= 1;
    }
    digits[at] = last_digit(rest);
    at
}

// Puts a number at a place of the room, and answers the place after it, as `put_text` does.
#[tactic(auto, using(crate::proofs::Spelling::put_digits))]
pub fn put_decimal(room: &mut [u8], at: usize, x: u64) -> usize
    ensures { (result, room.new) ≡ written_at (decimal_text x) at room.old }
{
    let mut digits = [0; 20];
    let start = spell(x, &mut digits);
    put_text(room, at, &digits[start..])
}

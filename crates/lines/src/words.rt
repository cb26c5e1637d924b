// The words of a line: what stands between its blanks.
ghost use Rattle.std.specs.Prelude.{◌≡◌, [], length, get_or, eqb};
ghost use Rattle.lines.specs.Words.{words_of, none_empty};

fn is_blank(b: &u8) -> bool
    ensures { result ≡ eqb b.now 32 }
{
    *b == b' '
}

pub fn count_words(line: &[u8]) -> usize
    ensures { result ≡ length (words_of line.now) }
{
    line.split(|b| is_blank(b)).count()
}

// Whether no word is empty: no blank stands at an end of the line or behind another.
pub fn well_spaced(line: &[u8]) -> bool
    ensures { result ≡ none_empty (words_of line.now) }
{
    line.split(|b| is_blank(b)).all(|word| !word.is_empty())
}

// A word of the line by its number; empty where the line has no such word.
pub fn word(line: &[u8], k: usize) -> &[u8]
    ensures { result.now ≡ get_or (words_of line.now) k [] }
{
    line.split(|b| is_blank(b)).nth(k).unwrap_or_default()
}

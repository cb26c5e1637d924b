// Which records are well shaped.
ghost use Rattle.std.specs.Prelude.{◌≡◌, ◌<◌, ◌≤◌, length};
ghost use Rattle.gdl.specs.Lists.{every};
ghost use Rattle.gdl.specs.Game.{Game};
ghost use Rattle.session.specs.Shape.{flag_fits, below, in_grid, choice_within, shaped, limits_of};
ghost use Rattle.session.specs.Runs.{Bounds, RunIf, FittingIf};

use crate::Session;

// How much of each thing a game has.
#[derive(Clone, Copy)]
pub struct Limits {
    pub seats: u16,
    pub fluents: u16,
    pub moves: u16,
    pub percepts: u16,
}

// The places where a flag may be set: the first `columns` of each of the first `rows` rows of `width` places.
#[derive(Clone, Copy)]
struct Grid {
    width: usize,
    rows: u16,
    columns: u16,
    ghost wide: { 0 < width },
}

impl Grid {
    // Whether place i may be set.
    fn holds(self, i: usize) -> bool
        ensures { result ≡ in_grid self.width self.rows self.columns i }
    {
        i / self.width < usize::from(self.rows) && i % self.width < usize::from(self.columns)
    }

    // Whether a flag at place i is at most 1 where it may be set, and else 0. A flag of 0 fits anywhere: asked first, since the place costs
    // a division.
    fn flag_fits(self, x: u8, i: usize) -> bool
        ensures { result ≡ flag_fits (in_grid self.width self.rows self.columns) i x }
    {
        x == 0 || x == 1 && self.holds(i)
    }

    // How many flags from place i on were found to fit: 64 where a run of them is 0, which is nearly everywhere, else one. None if that one does not.
    fn fitting(self, flags: &[u8], i: usize) -> Option<usize>
        requires { i < length flags.now }
        ensures { FittingIf (flag_fits (in_grid self.width self.rows self.columns)) flags.now i result }
    {
        if run_unset(flags, i) {
            Some(64)
        } else if self.flag_fits(flags[i], i) {
            Some(1)
        } else {
            None
        }
    }

    // Whether flags are 0 or 1, and set only within the grid. A turn passes one flag or 64, so that it is no loop over the flags.
    fn flags_fit(self, flags: &[u8]) -> bool
        ensures { result ≡ every (flag_fits (in_grid self.width self.rows self.columns)) flags.now }
    {
        let mut i: usize = 0;
        while i < flags.len() {
            match self.fitting(flags, i) {
                Some(n) => i += n,
                None => return false,
            }
        }
        true
    }
}

// A number that no flag is above: 0 says that all are 0. One turn a flag, without an exit, so that many are read at once.
fn highest(flags: &[u8]) -> u8
    ensures { Bounds flags.now (length flags.now) result }
{
    let mut top: u8 = 0;
    for flag in flags {
        top = top.max(*flag);
    }
    top
}

// Whether a run of 64 flags starts at place i, all of them 0. Only multiples of 64 start one, so that no flag is read for many runs.
fn run_unset(flags: &[u8], i: usize) -> bool
    requires { i < length flags.now }
    ensures { RunIf flags.now i result }
{
    i % 64 == 0 && 64 <= flags.len() - i && highest(&flags[i..i + 64]) == 0
}

// Whether a choice is none, or one more than a move below M of a seat below R.
fn choice_fits(x: u16, seat: usize, seats: u16, moves: u16) -> bool
    ensures { result ≡ choice_within seats moves seat x }
{
    if seat < usize::from(seats) {
        x <= moves
    } else {
        x == 0
    }
}

// Whether the choices fit a game with so many seats and moves.
pub fn choices_fit(choices: &[u16], seats: u16, moves: u16) -> bool
    ensures { result ≡ every (choice_within seats moves) choices.now }
{
    choices
        .iter()
        .enumerate()
        .all(|(s, x)| choice_fits(*x, s, seats, moves))
}

// Whether the position fits a game with so many fluents: one row, wider than any.
pub fn position_fits(position: &[u8], fluents: u16) -> bool
    ensures { result ≡ every (flag_fits (below fluents)) position.now }
{
    let row = Grid {
        width: 65536,
        rows: 1,
        columns: fluents,
    };
    row.flags_fit(position)
}

// "It is well shaped if the round is at most 65,535, all flags are 0 or 1, none is set at or beyond F, R or P, each choice is none or a
// move below M, and seats from R on have none."
pub fn shaped(s: Session, l: Limits) -> bool
    ensures { (G : Game) → l ≡ limits_of G → result ≡ shaped G s }
{
    let percepts = Grid {
        width: 256,
        rows: l.seats,
        columns: l.percepts,
    };
    s.round <= 65535
        && position_fits(&s.position, l.fluents)
        && choices_fit(&s.choices, l.seats, l.moves)
        && percepts.flags_fit(&s.percepts)
}

// The kinds of atoms, and the number of each in a table.
ghost use Rattle.std.specs.Prelude.{◌≡◌};
ghost use Rattle.gdl.specs.Kinds.{kind_number};

// Arrays hold the number (`kinds_of` of specs/Layout.antt, and the format): who asks an atom of theirs compares with `number()`, since
// to make a Kind of each number first would be no plainer.
#[derive(Clone, Copy, PartialEq, Eq, Debug)]
pub enum Kind {
    Plain,
    Role,
    Init,
    True,
    Does,
    Legal,
    Next,
    Sees,
    Terminal,
    Goal,
}

impl Kind {
    // The number that stands for the kind in a table.
    pub fn number(self) -> u16
        ensures { result ≡ kind_number self }
    {
        match self {
            Kind::Plain => 0,
            Kind::Role => 1,
            Kind::Init => 2,
            Kind::True => 3,
            Kind::Does => 4,
            Kind::Legal => 5,
            Kind::Next => 6,
            Kind::Sees => 7,
            Kind::Terminal => 8,
            Kind::Goal => 9,
        }
    }
}

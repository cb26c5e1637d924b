// The refusals of document 01's table, one case for each row, with its number and its place.
#![tactic(auto)]

ghost use Rattle.std.specs.Prelude.{◌≡◌};
ghost use Rattle.refusals.specs.Refusal.{number_of, place_of};

// A case holds its place where that is not always 0: a byte of the table, a clause, an atom or a seat, as the row says. Success is a case, and no
// Ok: `check` of calls/specs/Calls.antt answers it, and `Numbers.zero_success` is said of its number.
#[derive(Clone, Copy, PartialEq, Eq, Debug)]
pub enum Refusal {
    Success,
    InputEnds(usize),
    NotANumber(usize),
    OutOfRange(usize),
    NotAbove(usize),
    BytesAfter(usize),
    RoleWithBody(usize),
    NeverHead(usize),
    NeverInBody(usize),
    InitRule(usize),
    DoesRule(usize),
    NoLevels(usize),
    NoRoleFact(usize),
    TableTooLong,
    RoomTooShort,
    NoSuchSeat,
    NoSuchMove,
    AlreadyChosen,
    NotLegal(usize),
    GameOver,
    NoChoice(usize),
    BadShape,
    LastRound,
}

pub fn number_of(r: Refusal) -> u8
    ensures { result ≡ number_of r }
{
    match r {
        Refusal::Success => 0,
        Refusal::InputEnds(_) => 1,
        Refusal::NotANumber(_) => 2,
        Refusal::OutOfRange(_) => 3,
        Refusal::NotAbove(_) => 4,
        Refusal::BytesAfter(_) => 5,
        Refusal::RoleWithBody(_) => 6,
        Refusal::NeverHead(_) => 7,
        Refusal::NeverInBody(_) => 8,
        Refusal::InitRule(_) => 9,
        Refusal::DoesRule(_) => 10,
        Refusal::NoLevels(_) => 11,
        Refusal::NoRoleFact(_) => 12,
        Refusal::TableTooLong => 13,
        Refusal::RoomTooShort => 14,
        Refusal::NoSuchSeat => 15,
        Refusal::NoSuchMove => 16,
        Refusal::AlreadyChosen => 17,
        Refusal::NotLegal(_) => 18,
        Refusal::GameOver => 19,
        Refusal::NoChoice(_) => 20,
        Refusal::BadShape => 21,
        Refusal::LastRound => 22,
    }
}

pub fn place_of(r: Refusal) -> usize
    ensures { result ≡ place_of r }
{
    match r {
        Refusal::InputEnds(place)
        | Refusal::NotANumber(place)
        | Refusal::OutOfRange(place)
        | Refusal::NotAbove(place)
        | Refusal::BytesAfter(place)
        | Refusal::RoleWithBody(place)
        | Refusal::NeverHead(place)
        | Refusal::NeverInBody(place)
        | Refusal::InitRule(place)
        | Refusal::DoesRule(place)
        | Refusal::NoLevels(place)
        | Refusal::NoRoleFact(place)
        | Refusal::NotLegal(place)
        | Refusal::NoChoice(place) => place,
        _ => 0,
    }
}

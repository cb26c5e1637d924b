// Which command a line is, by its first word, and how many words it takes.
ghost use Rattle.std.specs.Prelude.{◌≡◌};
ghost use Rattle.commands.specs.Texts.{same};
ghost use Rattle.commands.specs.Commands.{command_of, fewest, most};

#[derive(Clone, Copy, PartialEq, Eq, Debug)]
pub enum Command {
    Table,
    Load,
    Check,
    Claim,
    Open,
    Offer,
    Play,
    Message,
    Hidden,
    Model,
    Record,
    Help,
}

fn is(word: &[u8], name: &[u8]) -> bool
    ensures { result ≡ same word.now name.now }
{
    word == name
}

// The command of a name, if it is one. No `match` on the names: of a byte string as a pattern a proof knows the length alone.
#[tactic(auto, unfolding(crate::specs::Commands::named))]
pub fn command_of(word: &[u8]) -> Option<Command>
    ensures { result ≡ command_of word.now }
{
    if is(word, b"table") {
        return Some(Command::Table);
    }
    if is(word, b"load") {
        return Some(Command::Load);
    }
    if is(word, b"check") {
        return Some(Command::Check);
    }
    if is(word, b"claim") {
        return Some(Command::Claim);
    }
    if is(word, b"open") {
        return Some(Command::Open);
    }
    if is(word, b"offer") {
        return Some(Command::Offer);
    }
    if is(word, b"play") {
        return Some(Command::Play);
    }
    if is(word, b"message") {
        return Some(Command::Message);
    }
    if is(word, b"hidden") {
        return Some(Command::Hidden);
    }
    if is(word, b"model") {
        return Some(Command::Model);
    }
    if is(word, b"record") {
        return Some(Command::Record);
    }
    if is(word, b"help") {
        return Some(Command::Help);
    }
    None
}

// The fewest words that a command has behind its name, and the most.
pub fn words_behind(command: Command) -> (usize, usize)
    ensures { result ≡ (fewest command, most command) }
{
    match command {
        Command::Check | Command::Claim | Command::Open | Command::Play | Command::Help => (0, 0),
        Command::Record => (0, 1),
        Command::Table | Command::Load => (1, 1),
        Command::Message => (1, 2),
        Command::Offer => (2, 2),
        Command::Model => (2, 3),
        Command::Hidden => (3, 3),
    }
}

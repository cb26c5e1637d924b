// What is current, and the answer to a line.
ghost use Rattle.std.specs.Prelude.{◌≡◌, ◌-◌, length, take, drop};
ghost use Rattle.feed.specs.Feed.{Held};
ghost use Rattle.interpreter.specs.Tables.{accepted};
ghost use Rattle.interpreter.specs.Desk.{new_desk, command_in, with_length, with_record, taken, Meant, LineMeant, FoundMeant, Answers, AnswersOr};

use crate::records::Turned;
use crate::tables::{load_table, set_table};
use crate::{looks, records};
use commands::command::{Command, command_of, words_behind};
use commands::fault::{Fault, put_fault};
use commands::reply::{put_help, put_ok};
use feed::{Feed, Found};
use lines::text::first_bytes;
use lines::words::{count_words, well_spaced, word};
use session::Session;
use session::bytes::blank_session;
use std::rt::Files;

// How much of the table's room is the current table, and the current record: the room is lent, fixed memory, so its length stands here.
#[derive(Clone, Copy)]
pub struct Desk {
    pub table: usize,
    pub session: Session,
}

// What is current after a line, and how long its answer is.
#[derive(Clone, Copy)]
pub struct Answered {
    pub desk: Desk,
    pub length: usize,
}

// At first the table is empty and the record blank.
pub fn new_desk() -> Desk
    ensures { result ≡ new_desk }
{
    Desk {
        table: 0,
        session: blank_session(),
    }
}

// An answer that changes nothing. This and the two below stay three: each makes the desk from another outcome.
fn said(desk: Desk, length: usize) -> Answered
    ensures { result ≡ with_length desk length }
{
    Answered { desk, length }
}

// "ok LENGTH": the table of that length is now current.
fn taken(desk: Desk, table: usize, room: &mut [u8]) -> Answered
    ensures { (result, room.new) ≡ taken desk (accepted table) room.old }
{
    let length = put_ok(room, table);
    Answered {
        desk: Desk { table, ..desk },
        length,
    }
}

// An answer with the record that is now current.
fn turned(desk: Desk, turned: Turned) -> Answered
    ensures { result ≡ with_record desk turned }
{
    Answered {
        desk: Desk {
            session: turned.session,
            ..desk
        },
        length: turned.length,
    }
}

// The command of a line, or what is wrong with its blanks, its first word or the number of its words.
#[tactic(auto, using(crate::proofs::Answering::faulting))]
fn command_in(line: &[u8]) -> Result<Command, Fault>
    ensures { result ≡ command_in line.now }
{
    if !well_spaced(line) {
        return Err(Fault::Blanks);
    }
    let Some(command) = command_of(word(line, 0)) else {
        return Err(Fault::Command);
    };
    let (fewest, most) = words_behind(command);
    let words = count_words(line);
    if words <= fewest || most < words - 1 {
        return Err(Fault::Words);
    }
    Ok(command)
}

// The answer to a command whose words are as many as they are to be, or what is wrong with them.
// Files, table, desk and room go on one by one, here and below: table and room are lent to be changed, the desk goes by value, and `Answers` says of each
// what becomes of it, so a struct would be no plainer.
#[tactic(auto, using(crate::proofs::Answering::answerings))]
fn answer_command<F: Files>(
    files: &F,
    line: &[u8],
    command: Command,
    table: &mut [u8],
    desk: Desk,
    room: &mut [u8],
) -> Result<Answered, Fault>
    ensures { AnswersOr (Meant line.now command table.old desk) desk room.old result table.new room.new }
{
    match command {
        Command::Table => Ok(taken(desk, set_table(word(line, 1), table)?, room)),
        Command::Load => Ok(taken(desk, load_table(files, word(line, 1), table)?, room)),
        Command::Check => Ok(said(desk, looks::check(first_bytes(table, desk.table), room))),
        Command::Claim => Ok(said(desk, looks::claim(first_bytes(table, desk.table), room))),
        Command::Open => Ok(turned(desk, records::open(first_bytes(table, desk.table), room))),
        Command::Offer => Ok(turned(
            desk,
            records::offer(line, first_bytes(table, desk.table), desk.session, room)?,
        )),
        Command::Play => Ok(turned(
            desk,
            records::play(first_bytes(table, desk.table), desk.session, room),
        )),
        Command::Message => Ok(said(
            desk,
            looks::message(line, first_bytes(table, desk.table), desk.session, room)?,
        )),
        Command::Hidden => Ok(said(
            desk,
            looks::hidden(line, first_bytes(table, desk.table), room)?,
        )),
        Command::Model => Ok(said(
            desk,
            looks::model(line, first_bytes(table, desk.table), room)?,
        )),
        Command::Record => Ok(turned(desk, records::record(line, desk.session, room)?)),
        Command::Help => Ok(said(desk, put_help(room))),
    }
}

// The answer to a line, or what is wrong with it.
#[tactic(auto, using(crate::proofs::Answering::linings))]
fn answer_line<F: Files>(
    files: &F,
    line: &[u8],
    table: &mut [u8],
    desk: Desk,
    room: &mut [u8],
) -> Result<Answered, Fault>
    ensures { AnswersOr (LineMeant line.now table.old desk) desk room.old result table.new room.new }
{
    let command = command_in(line)?;
    answer_command(files, line, command, table, desk, room)
}

// The answer to a line without its end, written at the front of the room: "error WHAT, and nothing changes" where something is wrong.
pub fn answer<F: Files>(
    files: &F,
    line: &[u8],
    table: &mut [u8],
    desk: Desk,
    room: &mut [u8],
) -> Answered
    ensures { Answers (LineMeant line.now table.old desk) room.old result table.new room.new }
{
    match answer_line(files, line, table, desk, room) {
        Ok(answered) => answered,
        Err(fault) => said(desk, put_fault(room, fault)),
    }
}

// The answer to what a feed has found in its room: the two go together, since `Held` is of the feed and the room's length.
#[tactic(auto, using(crate::proofs::Answering::linings))]
pub fn answer_found<F: Files>(
    files: &F,
    lines: &[u8],
    feed: Feed,
    table: &mut [u8],
    desk: Desk,
    room: &mut [u8],
) -> Answered
    requires { Held (length lines.now) feed }
    ensures { Answers (FoundMeant feed.found (take (feed.end - feed.start) (drop feed.start lines.now)) table.old desk) room.old result table.new room.new }
{
    match feed.found {
        Found::Line => answer(files, &lines[feed.start..feed.end], table, desk, room),
        Found::Long => said(desk, put_fault(room, Fault::LongLine)),
        Found::Nothing | Found::More => said(desk, 0),
    }
}

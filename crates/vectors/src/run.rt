// The two files, line by line.
ghost use Rattle.std.specs.Prelude.{length};
ghost use Rattle.feed.specs.Feed.{Held};

use crate::report::Tally;
use feed::{Feed, Found, new_feed, next_line};
use interpreter::desk::{Desk, answer_found, new_desk};
use lines::text::first_bytes;
use std::io::{Read, Write};
use std::rt::Files;

// The command lines and the answers that are expected.
#[derive(Drop)]
pub struct Sources<R> {
    pub lines: R,
    pub answers: R,
}

// Room for the lines of each file, for the current table and for an answer: fixed memory, as all of the referee's.
#[derive(Drop)]
struct Rooms {
    lines: [u8; 140007],
    answers: [u8; 8192],
    table: [u8; 70000],
    answer: [u8; 8192],
}

// The present line of each file.
#[derive(Clone, Copy)]
struct Pair {
    line: Feed,
    answer: Feed,
}

// The bytes of the line that a feed has found.
fn line_of(room: &[u8], feed: Feed) -> &[u8]
    requires { Held (length room.now) feed }
{
    &room[feed.start..feed.end]
}

fn next_pair<R: Read>(sources: &mut Sources<R>, rooms: &mut Rooms, pair: Pair) -> Pair
    requires { Held 140007 pair.line × Held 8192 pair.answer }
    ensures { Held 140007 result.line × Held 8192 result.answer }
{
    Pair {
        line: next_line(&mut sources.lines, &mut rooms.lines, pair.line),
        answer: next_line(&mut sources.answers, &mut rooms.answers, pair.answer),
    }
}

// Answers a line and compares the answer. What is current then is answered.
fn compare<F: Files, W: Write>(
    files: &F,
    output: &mut W,
    rooms: &mut Rooms,
    pair: Pair,
    desk: Desk,
    tally: &mut Tally,
) -> Desk
    requires { Held 140007 pair.line × Held 8192 pair.answer }
{
    let answered = answer_found(
        files,
        &rooms.lines,
        pair.line,
        &mut rooms.table,
        desk,
        &mut rooms.answer,
    );
    tally.judge(
        output,
        line_of(&rooms.lines, pair.line),
        line_of(&rooms.answers, pair.answer),
        first_bytes(&rooms.answer, answered.length),
    );
    answered.desk
}

// Nothing says that a file ends, so the turns are as many as no run uses up.
fn run_lines<F: Files, R: Read, W: Write>(
    files: &F,
    output: &mut W,
    sources: &mut Sources<R>,
    rooms: &mut Rooms,
) -> Tally {
    let mut pair = Pair {
        line: new_feed(),
        answer: new_feed(),
    };
    let mut desk = new_desk();
    let mut tally = Tally::new();
    for _ in 0..u64::MAX {
        pair = next_pair(sources, rooms, pair);
        if pair.line.found == Found::Nothing && pair.answer.found == Found::Nothing {
            return tally;
        }
        desk = compare(files, output, rooms, pair, desk, &mut tally);
    }
    tally
}

pub fn run_files<F: Files, R: Read, W: Write>(
    files: &F,
    output: &mut W,
    sources: &mut Sources<R>,
) -> Tally {
    let mut rooms = Rooms {
        lines: [0; 140007],
        answers: [0; 8192],
        table: [0; 70000],
        answer: [0; 8192],
    };
    run_lines(files, output, sources, &mut rooms)
}

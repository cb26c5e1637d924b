// The referee as a co-process: one command a line on standard input, one answer a line on standard output, until the input ends.
#![tactic(auto)]

ghost use Rattle.feed.specs.Feed.{Held};

use feed::{Feed, Found, new_feed, next_line};
use interpreter::desk::{Desk, answer_found, new_desk};
use lines::text::put_text;
use std::io::{Read, Write};
use std::rt::Files;

// Room for the lines that come, for the current table and for an answer: fixed memory, as all of the referee's.
#[derive(Drop)]
struct Rooms {
    lines: [u8; 140007],
    table: [u8; 70000],
    answer: [u8; 8192],
}

// Writes an answer and its line end at once; none where there is no room for it, or the write fails.
fn write_line<W: Write>(output: &mut W, room: &mut [u8], length: usize) -> Option<()> {
    let end = put_text(room, length, b"\n");
    output.write_all(room.get(..end)?).ok()
}

// What is current after the answer to what was found; none where the input has ended, or the answer could not be written.
fn reply<F: Files, W: Write>(
    files: &F,
    output: &mut W,
    rooms: &mut Rooms,
    feed: Feed,
    desk: Desk,
) -> Option<Desk>
    requires { Held 140007 feed }
{
    if feed.found == Found::Nothing {
        return None;
    }
    let answered = answer_found(
        files,
        &rooms.lines,
        feed,
        &mut rooms.table,
        desk,
        &mut rooms.answer,
    );
    write_line(output, &mut rooms.answer, answered.length)?;
    Some(answered.desk)
}

// Nothing says that the input ends, so the turns are as many as no run uses up.
fn serve<F: Files, R: Read, W: Write>(files: &F, input: &mut R, output: &mut W, rooms: &mut Rooms) {
    let mut feed = new_feed();
    let mut desk = new_desk();
    for _ in 0..u64::MAX {
        feed = next_line(input, &mut rooms.lines, feed);
        let Some(after) = reply(files, output, rooms, feed, desk) else {
            return;
        };
        desk = after;
    }
}

// The longest line is a table of 70,000 bytes with its command and its line end; the longest answer is a record.
fn main(rt: HostRuntime) {
    let mut input = rt.stdin();
    let mut output = rt.stdout();
    let mut rooms = Rooms {
        lines: [0; 140007],
        table: [0; 70000],
        answer: [0; 8192],
    };
    serve(&rt, &mut input, &mut output, &mut rooms);
}

// Lines from a reader, by way of lent room. A line with no room for its end is told once and skipped.
#![tactic(auto)]

pub mod file; // a file read whole
mod reading; // one read from a reader

ghost use Rattle.std.specs.Prelude.{ℕ, ◌-◌, ◌≤◌, ◌<◌, ◌≡◌, length, unwrap_or, IfSome};
ghost use Rattle.std.proofs.lemmas.List.Edits.{sets};
ghost use Rattle.std.proofs.Math.Seq.{slice};
ghost use Rattle.feed.specs.Feed.{Held, until_end, told, told_last, seeking, new_feed, behind};

use reading::read_more;
use std::io::Read;

// A line, a line too long, the end, or not yet known: `told` and `told_last` of specs/Feed answer these, and an Option with an enum inside would be no
// plainer.
#[derive(Clone, Copy, PartialEq, Eq, Debug)]
pub enum Found {
    Line,
    Long,
    Nothing,
    More,
}

// Up to `have` the room was read. A line that was found lies from `start` to `end`; one that was not begins at `start` and has no end
// before `end`, and `long` says that its beginning was dropped. `Held` and `told` of specs/Feed are said of these fields, found or not.
#[derive(Clone, Copy)]
pub struct Feed {
    pub found: Found,
    pub start: usize,
    pub end: usize,
    pub have: usize,
    pub long: bool,
}

// Nothing was found yet in what stands from a place on.
fn seeking(place: usize, have: usize) -> Feed
    ensures { result ≡ seeking place have }
{
    Feed {
        found: Found::More,
        start: place,
        end: place,
        have,
        long: false,
    }
}

pub fn new_feed() -> Feed
    ensures value { result ≡ new_feed }
    ensures held { Held 0 result }
{
    seeking(0, 0)
}

// How many bytes stand before the first line end, if there is one.
fn line_end(bytes: &[u8]) -> Option<usize>
    ensures value { unwrap_or result (length bytes.now) ≡ until_end bytes.now }
    ensures within { IfSome result (λ end. end < length bytes.now) }
{
    bytes.iter().position(|b| *b == b'\n')
}

// Moves what stands from `start` up to `have` to the front, and answers how much it is.
// A function of its own beside `copy_within`: its clauses say what the room holds then, which `step` would else have to say itself.
fn to_front(room: &mut [u8], start: usize, have: usize) -> usize
    requires { (start ≤ have) × (have ≤ length room.old) }
    ensures value { result ≡ have - start }
    ensures room_after { room.new ≡ sets room.old 0 (slice start have room.old) }
{
    room.copy_within(start..have, 0);
    have - start
}

// What a line is that has ended.
fn told(long: bool) -> Found
    ensures { result ≡ told long }
{
    if long { Found::Long } else { Found::Line }
}

// What is left when the input has ended: a line without its end, or nothing.
fn told_last(left: usize, long: bool) -> Found
    ensures { result ≡ told_last left long }
{
    if !long && left == 0 {
        return Found::Nothing;
    }
    told(long)
}

// Looks for the line's end, and where it is not there yet reads once.
fn step<R: Read>(reader: &mut R, room: &mut [u8], feed: Feed) -> Feed
    requires { Held (length room.old) feed }
    ensures { Held (length room.old) result }
{
    if let Some(end) = line_end(&room[feed.end..feed.have]) {
        return Feed {
            found: told(feed.long),
            end: feed.end + end,
            long: false,
            ..feed
        };
    }
    let left = to_front(room, feed.start, feed.have);
    if left == room.len() {
        return Feed {
            long: true,
            ..seeking(0, 0)
        };
    }
    // a failed read is the end of the input
    let have = read_more(reader, room, left).unwrap_or(left);
    if have == left {
        return Feed {
            found: told_last(left, feed.long),
            start: 0,
            end: left,
            have: left,
            long: false,
        };
    }
    Feed {
        start: 0,
        end: left,
        have,
        ..feed
    }
}

// Where the next line begins: behind the end of the one that was found.
#[tactic(auto, unfolding(crate::specs::Feed::behind))]
fn behind(feed: Feed) -> Feed
    ensures value { result ≡ behind feed }
    ensures by_index { (n : ℕ) → Held n feed → Held n result }
{
    let place = if feed.end < feed.have {
        feed.end + 1
    } else {
        feed.end
    };
    seeking(place, feed.have)
}

// The next line. Nothing says that a line ends, so the turns are as many as no run uses up.
pub fn next_line<R: Read>(reader: &mut R, room: &mut [u8], feed: Feed) -> Feed
    requires { Held (length room.old) feed }
    ensures { Held (length room.old) result }
{
    let mut next = behind(feed);
    for _ in 0..u64::MAX {
        next = step(reader, room, next);
        if next.found != Found::More {
            return next;
        }
    }
    next
}

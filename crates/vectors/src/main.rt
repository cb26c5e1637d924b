// Runs the command lines of one file through the interpreter, compares each answer with the same line of a second file, and tells how
// many differ, with the first that does.
#![tactic(auto)]

mod report; // what is told
mod run; // the two files, line by line

use run::{Sources, run_files};
use std::env::Env;
use std::fs;
use std::rt::Files;

// Opens the file that an argument names; none where it cannot be opened, which is told.
fn open_argument<R: Env + Files + Eprint>(rt: &R, i: usize) -> Option<R::File> {
    let mut path = [0u8; 4096];
    let length = rt.arg(i, &mut path).unwrap_or(0);
    let Ok(name) = str::from_utf8(&path[..length]) else {
        let _ = eprintln!(rt; "argument {i} is not text");
        return None;
    };
    match fs::open(rt, name) {
        Ok(file) => Some(file),
        Err(error) => {
            let _ = eprintln!(rt; "{name}: {error}");
            None
        }
    }
}

fn main(rt: HostRuntime) {
    let lines = open_argument(&rt, 1);
    let answers = open_argument(&rt, 2);
    let (Some(lines), Some(answers)) = (lines, answers) else {
        return;
    };
    let mut output = rt.stdout();
    let tally = run_files(&rt, &mut output, &mut Sources { lines, answers });
    tally.tell(&mut output);
}

// What is told: how many lines were compared, how many answers differ, and the first that does.
use std::io::Write;

#[derive(Clone, Copy)]
pub struct Tally {
    lines: u64,
    differ: u64,
}

// That a write fails changes nothing of the count. What is told is bytes, which need not be text.
fn write_named<W: Write>(output: &mut W, name: &[u8], text: &[u8]) {
    for part in [name, text, b"\n"] {
        let _ = output.write_all(part);
    }
}

impl Tally {
    pub fn new() -> Tally {
        Tally {
            lines: 0,
            differ: 0,
        }
    }

    // Counts a line, and shows it if its answer is the first that differs.
    pub fn judge<W: Write>(&mut self, output: &mut W, line: &[u8], expected: &[u8], answer: &[u8]) {
        self.lines = self.lines.saturating_add(1);
        if expected == answer {
            return;
        }
        if self.differ == 0 {
            write_named(output, b"line: ", line);
            write_named(output, b"expected: ", expected);
            write_named(output, b"answer: ", answer);
        }
        self.differ = self.differ.saturating_add(1);
    }

    // One line, in the end.
    pub fn tell<W: Write>(&self, output: &mut W) {
        let _ = writeln!(output, "{} lines, {} differ", self.lines, self.differ);
    }
}

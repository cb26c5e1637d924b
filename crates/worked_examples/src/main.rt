// Runs the examples of document 01 through the calls, and tells for each whether the answer is the one that stands there.
#![tactic(auto)]

mod games; // the tables of the examples
mod seats; // what seats read, and what is hidden from them
mod tables; // what the check and the model say of a table

use games::{LEGAL_BY_DOES, ONE_BYTE_MORE, P_IF_NOT_P, P_IF_NOT_Q, P_IF_P, PENNY, SMALLEST};
use seats::{answers_for_both, opened, played, reads};
use std::io::Write;
use tables::{is_accepted, is_flagged, is_numbered, is_refused};

// Writes an example and whether it came out right. That a write fails changes nothing.
fn tell<W: Write>(output: &mut W, example: &str, right: bool) {
    let answer = if right { ": ok\n" } else { ": NOT ok\n" };
    let _ = output.write_all(example.as_bytes());
    let _ = output.write_all(answer.as_bytes());
}

fn numbers<W: Write>(output: &mut W) {
    tell(
        output,
        "1. (P) Empty input: 1, place 0",
        is_refused(b"", 1, 0),
    );
    tell(
        output,
        "2. (P) 80 00: 2, place 0",
        is_refused(b"\x80\x00", 2, 0),
    );
    tell(
        output,
        "3. (P) FF FF: 1, place 0",
        is_refused(b"\xff\xff", 1, 0),
    );
    tell(
        output,
        "4. (P) 80 80 04: 2, place 0",
        is_refused(b"\x80\x80\x04", 2, 0),
    );
    tell(output, "5. (P) 02: 3, place 0", is_refused(b"\x02", 3, 0));
}

// "accepted; one seat, never over. With one byte more: 5, place 13."
fn smallest<W: Write>(output: &mut W) {
    let plays = reads(SMALLEST, opened(SMALLEST), 0, b"\x00\x00\x00\x00\x00\x00");
    tell(
        output,
        "6. (P) One seat, never over: accepted",
        is_accepted(SMALLEST) && plays,
    );
    tell(
        output,
        "6. (P) With one byte more: 5, place 13",
        is_refused(ONE_BYTE_MORE, 5, 13),
    );
}

fn atoms<W: Write>(output: &mut W) {
    tell(
        output,
        "7. (P) Only p if not p: 11",
        is_numbered(P_IF_NOT_P, 11),
    );
    tell(
        output,
        "8. (P) Only p if p: accepted, p false",
        is_accepted(P_IF_P) && is_flagged(P_IF_P, 0, 0),
    );
    tell(
        output,
        "9. (P) q if q; p if not q: p true",
        is_flagged(P_IF_NOT_Q, 0, 1),
    );
    tell(
        output,
        "10. A legal atom with not p, and p if does: 10",
        is_numbered(LEGAL_BY_DOES, 10),
    );
}

fn penny<W: Write>(output: &mut W) {
    let equal = played(PENNY, 0, 0);
    let other = played(PENNY, 1, 0);
    let won = reads(PENNY, equal, 0, b"\x00\x01\x01\x01\x00\x00\x01\x64");
    let lost = reads(PENNY, other, 0, b"\x00\x01\x01\x01\x00\x00\x01\x00");
    let second = b"\x01\x01\x01\x00\x00\x01\x32";
    tell(
        output,
        "11. (P) Open: seat 0 reads 00 00 00 00 02 00 01 00",
        reads(PENNY, opened(PENNY), 0, b"\x00\x00\x00\x00\x02\x00\x01\x00"),
    );
    tell(
        output,
        "12. (P) Both play 0: seat 0 reads 00 01 01 01 00 00 01 64, seat 1 reads 01 01 01 00 00 01 32",
        won && reads(PENNY, equal, 1, second),
    );
    tell(
        output,
        "13. (P) Seat 0 plays 1, seat 1 plays 0: seat 0 reads 00 01 01 01 00 00 01 00, seat 1 as in 12",
        lost && reads(PENNY, other, 1, second),
    );
    tell(
        output,
        "14. (P) Seat 0's moves are hidden from seat 1; seat 1's are not hidden from seat 0",
        answers_for_both(PENNY, 1, 0, 1) && answers_for_both(PENNY, 0, 1, 0),
    );
}

fn main(rt: HostRuntime) {
    let mut output = rt.stdout();
    numbers(&mut output);
    smallest(&mut output);
    atoms(&mut output);
    penny(&mut output);
}

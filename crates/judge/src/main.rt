// The judge: reads a job sheet from standard input, runs it from zeroed inboxes and prints the report, or the refusal
// (document 01, "The desk and its three services"). What it tells on standard error is for the command `judge` at the root, which
// puts it into words: a program has no exit status of its own.
#![tactic(auto)]

mod input;
mod lines;
mod rooms;

use std::io::ErrorKind;

// The longest sheet, and one byte more: no further is read. An input of at least so many bytes has its header among them, so 1 is
// out, 2 reads only the header, and where 2 is out the header asks for at most the longest sheet, so 3 is given for these bytes
// and for the whole input alike (specs/Longer.antt has the proof).
const MOST_INPUT: usize = limits::MOST_SHEET + 1;

fn main(rt: HostRuntime) {
    let mut room = rooms::input();
    let mut from = rt.stdin();
    match input::read_input(&mut from, &mut room) {
        Ok(size) => judge(&rt, &room[..size]),
        Err(_) => {
            let _ = rt.stderr().write_all(b"standard input could not be read\n");
        }
    }
}

// Prints the report or the refusal, and tells of it once that is out.
fn judge(rt: &HostRuntime, sheet: &[u8]) {
    let mut line = rooms::line();
    let mut told = [0u8; lines::TOLD_SIZE];
    let sizes = lines::lay_out(sheet, &mut line, &mut told);
    let size = sizes.line;
    let told_size = sizes.told;
    let printed = rt.stdout().write_all(&line[..size]);
    let err = rt.stderr();
    let _ = match printed {
        Ok(()) => err.write_all(&told[..told_size]),
        Err(e) if e.kind() == ErrorKind::BrokenPipe => {
            err.write_all(b"standard output could not be written: nobody reads it\n")
        }
        Err(_) => err.write_all(b"standard output could not be written\n"),
    };
}

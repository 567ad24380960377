// One sheet through all services. Rooms start from bytes that no zeroing leaves, so that what must stay untouched shows
// in the CRCs (document 01, "When the desk says no").
ghost use Rattle.std.specs.Prelude.{◌<◌, ◌≤◌, length};

use crate::lent;
use jamturret::{jamturret_check, jamturret_follow, jamturret_premise, jamturret_run};
use sheet::Answer;
use std::fs::File;
use std::io::{ErrorKind, Read};
use std::{io, str};

// Check, premise and run, then follow with the order that run wrote down. A file that cannot be opened is told on standard error.
pub fn job(rt: &HostRuntime, path: &[u8]) -> io::Result<()> {
    let mut input = lent::input();
    let n = match open(rt, path) {
        Ok(mut file) => read_full(&mut file, &mut input),
        Err(e) => return fail(rt, path, e),
    };
    let sheet = &input[..n];
    rt.write_all(path)?;
    answer(rt, ": check ", jamturret_check(sheet))?;
    answer(rt, "  premise ", jamturret_premise(sheet))?;
    run(rt, sheet)
}

// A path that is no text names no file that std opens.
fn open(rt: &HostRuntime, path: &[u8]) -> io::Result<File> {
    match str::from_utf8(path) {
        Ok(name) => File::open(rt, name),
        Err(_) => Err(io::Error::from(ErrorKind::InvalidInput)),
    }
}

// Reads until the room is full, the file ends or a read fails; answers how many bytes stand at the start of the room.
fn read_full(file: &mut File, room: &mut [u8]) -> usize
    ensures { result ≤ length room.new }
{
    let mut at = 0;
    while at < room.len() {
        match file.read(&mut room[at..]) {
            Ok(0) => return at,
            Ok(more) => at += more,
            Err(_) => return at,
        }
    }
    at
}

// The file's name and why it cannot be opened.
fn fail(rt: &HostRuntime, path: &[u8], e: io::Error) -> io::Result<()> {
    let said = format!(in rt.alloc(); "{e}")?;
    let words = system_words(said.as_str());
    rt.stderr().write_all(path)?;
    eprintln!(rt; ": {words}")
}

// The system's words, without the number that std puts behind them.
fn system_words(said: &str) -> &str {
    match said.split_once(" (os error ") {
        Some((words, _)) => words,
        None => said,
    }
}

fn run(rt: &HostRuntime, sheet: &[u8]) -> io::Result<()> {
    let mut inbox = lent::inbox();
    let mut report = lent::report();
    let mut order = lent::order();
    let mut scratch = lent::scratch();
    let ran = jamturret_run(sheet, &mut inbox, &mut report, &mut order, &mut scratch);
    answer(rt, "  run ", ran)?;
    crc(rt, "  order ", &order)?;
    rooms(rt, &inbox, &report, &scratch)?;
    if ran.number == 0 {
        controls(rt, &report)?;
        let steps = words::two_at(&report, 4);
        again(rt, sheet, &order, steps)?;
    }
    Ok(())
}

// Run's order followed, and then with the byte behind it, which is no rank: refusal 9 there.
fn again(rt: &HostRuntime, sheet: &[u8], order: &[u8], steps: usize) -> io::Result<()> {
    if steps < order.len() {
        follow(rt, "  follow ", sheet, &order[..steps])?;
        let more = steps + 1;
        follow(rt, "  one more ", sheet, &order[..more])?;
    }
    Ok(())
}

fn follow(rt: &HostRuntime, name: &str, sheet: &[u8], order: &[u8]) -> io::Result<()> {
    let mut inbox = lent::inbox();
    let mut report = lent::report();
    let mut scratch = lent::scratch();
    let followed = jamturret_follow(sheet, order, &mut inbox, &mut report, &mut scratch);
    answer(rt, name, followed)?;
    rooms(rt, &inbox, &report, &scratch)
}

// Number and place.
fn answer(rt: &HostRuntime, name: &str, a: Answer) -> io::Result<()> {
    println!(rt; "{name}{} {}", a.number, a.place)
}

// The report's header but P and N.
fn controls(rt: &HostRuntime, report: &[u8]) -> io::Result<()>
    requires { 16 ≤ length report.now }
{
    let verdict = words::byte_at(report, 0);
    let stop_rank = words::byte_at(report, 1);
    let stop_op = words::two_at(report, 2);
    print!(rt; "  verdict {verdict} stop {stop_rank} {stop_op}")?;
    let steps = words::two_at(report, 4);
    let messages = words::two_at(report, 10);
    let receives = words::two_at(report, 12);
    let cut = words::two_at(report, 14);
    println!(rt; " steps {steps} pending {messages} {receives} cut {cut}")
}

// CRCs of whole rooms, what lies behind inboxes and report among it.
fn rooms(rt: &HostRuntime, inbox: &[u8], report: &[u8], scratch: &[u8]) -> io::Result<()> {
    crc(rt, "  inbox ", inbox)?;
    crc(rt, "  report ", report)?;
    crc(rt, "  scratch ", scratch)
}

fn crc(rt: &HostRuntime, name: &str, room: &[u8]) -> io::Result<()> {
    let crc = crc::crc_of_bytes(room);
    println!(rt; "{name}{crc:04x}")
}

// Runs the buffer account and the waiting list, and prints what they answer, to be held to the file `stdout`.
// Account lines: size, in use and peak. After a charge also 1 where it was taken, else 0.
// Waiting lines: the place of the earliest that fits, counted from 0, or `none`.
#![tactic(auto)]

use account::Account;
use limits::ANY;
use std::io;
use waiting::Envelope;

fn account(size: usize, in_use: usize, peak: usize) -> Account {
    Account { size, in_use, peak }
}

fn figures(rt: &HostRuntime, a: Account) -> io::Result<()> {
    print!(rt; "{} {} {}", a.size, a.in_use, a.peak)
}

// An account that is charged n bytes.
fn charge_line(rt: &HostRuntime, mut a: Account, n: usize) -> io::Result<()> {
    let taken = u8::from(a.charge(n));
    figures(rt, a)?;
    println!(rt; " {taken}")
}

// An account from which a charge of n bytes goes.
fn release_line(rt: &HostRuntime, mut a: Account, n: usize) -> io::Result<()> {
    a.release(n);
    figures(rt, a)?;
    println!(rt; "")
}

fn found_line(rt: &HostRuntime, found: Option<usize>) -> io::Result<()> {
    match found {
        None => println!(rt; "none"),
        Some(k) => println!(rt; "{k}"),
    }
}

// Four messages wait: from 0 in communicator 0 with tag 5; from 1 in 1 with 5; from 1 in 0 with 6; from 0 in 0 with 6.
fn search_line(rt: &HostRuntime, source: usize, communicator: usize, tag: usize) -> io::Result<()> {
    let sources = [0, 1, 1, 0];
    let communicators = [0, 1, 0, 0];
    let tags = [5, 5, 6, 6];
    found_line(
        rt,
        waiting::search(&sources, &communicators, &tags, source, communicator, tag),
    )
}

fn envelope(source: usize, communicator: usize, tag: usize, operation: usize) -> Envelope {
    Envelope {
        source,
        communicator,
        tag,
        operation,
    }
}

// The same four in an array, and after them messages from 1 in communicator 2 with tag 9, but for the one at place 1,000, which
// is from 3 in communicator 2 with tag 9; the first `count` are searched.
fn array_line(
    rt: &HostRuntime,
    count: usize,
    source: usize,
    communicator: usize,
    tag: usize,
) -> io::Result<()> {
    let rest = envelope(1, 2, 9, 4);
    let mut list = [rest; limits::MOST_OPS];
    list[0] = envelope(0, 0, 5, 0);
    list[1] = envelope(1, 1, 5, 1);
    list[2] = envelope(1, 0, 6, 2);
    list[3] = envelope(0, 0, 6, 3);
    list[1000] = envelope(3, 2, 9, 1000);
    found_line(
        rt,
        waiting::earliest_of(list, count, source, communicator, tag),
    )
}

fn accounts(rt: &HostRuntime) -> io::Result<()> {
    charge_line(rt, account(10, 0, 0), 10)?;
    charge_line(rt, account(10, 0, 0), 11)?;
    charge_line(rt, account(10, 6, 8), 4)?;
    charge_line(rt, account(10, 6, 8), 5)?;
    charge_line(rt, account(10, 1, 8), 5)?;
    charge_line(rt, account(0, 0, 0), 0)?;
    release_line(rt, account(10, 6, 8), 6)?;
    release_line(rt, account(10, 6, 8), 5)?;
    release_line(rt, account(10, 3, 9), 5)
}

fn searches(rt: &HostRuntime) -> io::Result<()> {
    search_line(rt, 0, 0, 5)?;
    search_line(rt, ANY, 1, ANY)?;
    search_line(rt, 1, 0, ANY)?;
    search_line(rt, ANY, 0, 6)?;
    search_line(rt, 0, 0, 6)?;
    search_line(rt, 1, 0, 5)?;
    search_line(rt, ANY, 2, ANY)
}

fn arrays(rt: &HostRuntime) -> io::Result<()> {
    array_line(rt, 4, 0, 0, 5)?;
    array_line(rt, 4, ANY, 1, ANY)?;
    array_line(rt, 4, 0, 0, 6)?;
    array_line(rt, 4, 1, 2, 9)?;
    array_line(rt, 5, 1, 2, 9)?;
    array_line(rt, 0, ANY, 0, ANY)?;
    array_line(rt, 1001, 3, ANY, ANY)?;
    array_line(rt, 1000, 3, 2, ANY)?;
    array_line(rt, 1001, 3, 2, ANY)?;
    array_line(rt, 65535, 3, 2, 9)?;
    array_line(rt, 65535, ANY, 3, ANY)
}

fn main(rt: HostRuntime) -> io::Result<()> {
    accounts(&rt)?;
    searches(&rt)?;
    arrays(&rt)
}

// Runs outside vectors through the library and prints what it found, to be held to the file `stdout`.
// CRC-16/IBM-3740 of the catalogue's check text, and of texts whose CRC another program has given (Python's binascii.crc_hqx);
// then the sheets in `data/`: bench jobs 13 and 14 of document 01, large sheets, the longest ones (document 02, K11), probes and
// queries (K9), edition 2 (K6), and a sheet for each refusal that check can give. What each must give was worked out by another
// program, which steps through document 01's rules.
#![tactic(auto)]

mod jobs;
mod lent;

use jobs::job;
use std::io;

fn crc_line(rt: &HostRuntime, text: &[u8]) -> io::Result<()> {
    let crc = crc::crc_of_bytes(text);
    println!(rt; "{crc:04x}")
}

fn crc_lines(rt: &HostRuntime) -> io::Result<()> {
    crc_line(rt, b"123456789")?;
    crc_line(rt, b"")?;
    crc_line(rt, b"\x00")?;
    crc_line(rt, b"A")?;
    crc_line(rt, b"\xff\xff")?;
    crc_line(rt, b"The quick brown fox jumps over the lazy dog")?;
    let many = [b'A'; 256];
    crc_line(rt, &many)
}

// Document 01, "Bench jobs", 13; the empty buffered send with nothing attached, and with the 32 bytes that it costs.
fn thirteen(rt: &HostRuntime) -> io::Result<()> {
    job(rt, b"13-communicators-apart.sheet")?;
    job(rt, b"13-no-operations.sheet")?;
    job(rt, b"13-empty-buffered.sheet")?;
    job(rt, b"13-empty-buffered-32.sheet")
}

// Document 01, "Bench jobs", 14; slot 31 with its wait, and without it, which is refused 7 (document 02, K7).
fn fourteen(rt: &HostRuntime) -> io::Result<()> {
    job(rt, b"14-operations-2048.sheet")?;
    job(rt, b"14-operations-2049.sheet")?;
    job(rt, b"14-tag-32767.sheet")?;
    job(rt, b"14-tag-32768.sheet")?;
    job(rt, b"14-slot-31.sheet")?;
    job(rt, b"14-slot-31-forgotten.sheet")?;
    job(rt, b"14-slot-32.sheet")
}

// Up to sixteen boards, 1,263 operations and 4,096-byte messages; each way to end. Scripts that hold slots to the last end with
// the waits for them.
fn large(rt: &HostRuntime) -> io::Result<()> {
    job(rt, b"large-ring.sheet")?;
    job(rt, b"large-all-to-one.sheet")?;
    job(rt, b"large-messages.sheet")?;
    job(rt, b"large-overflow.sheet")?;
    job(rt, b"large-not-ready.sheet")?;
    job(rt, b"large-deadlock.sheet")?;
    job(rt, b"large-mixed-1.sheet")?;
    job(rt, b"large-mixed-2.sheet")?;
    job(rt, b"large-mixed-3.sheet")
}

// 2,048 operations on sixteen boards. Mixed: the longest sheet of edition 1; every mode but ready, cut messages, 8 communicators.
// Pending: all are messages that nobody receives. The others let the order matter: premise 20 and 21 at operation 2,047, 22 at
// rank 15; the last two stop at operation 2,047.
fn longest(rt: &HostRuntime) -> io::Result<()> {
    job(rt, b"longest-mixed.sheet")?;
    job(rt, b"longest-pending.sheet")?;
    job(rt, b"longest-any-source.sheet")?;
    job(rt, b"longest-not-ready.sheet")?;
    job(rt, b"longest-overflow.sheet")
}

// Probes and queries (document 02, K9): a ring of 2,048 operations with a probe before each receive; a small sheet for which the
// order does not matter; probes from any source and queries; and boards that hang, at probes among others.
fn probes(rt: &HostRuntime) -> io::Result<()> {
    job(rt, b"probes-ring.sheet")?;
    job(rt, b"probes-calm.sheet")?;
    job(rt, b"probes-and-queries.sheet")?;
    job(rt, b"probes-deadlock.sheet")
}

// Rooms for standard sends (document 02, K6): bench job 6 with rooms that cover its messages, and with rooms one byte short,
// premise 24; a small sheet with an attached buffer beside rooms, one of which is filled, freed and used again, and with queries
// and a probe of what is in it; and the longest sheet there is, a ring that finishes thanks to its rooms.
fn in_rooms(rt: &HostRuntime) -> io::Result<()> {
    job(rt, b"rooms-case-6.sheet")?;
    job(rt, b"rooms-one-byte-short.sheet")?;
    job(rt, b"rooms-mixed.sheet")?;
    job(rt, b"rooms-longest.sheet")
}

// Document 01, "When the desk says no": 1, 3, 4, 5 twice, 7 three times. Of those three, the first two forget a request as well,
// but another rule goes before it; the last forgets two, and nothing else is wrong (document 02, K7).
fn refused(rt: &HostRuntime) -> io::Result<()> {
    job(rt, b"no-short.sheet")?;
    job(rt, b"no-length.sheet")?;
    job(rt, b"no-crc.sheet")?;
    job(rt, b"no-entry.sheet")?;
    job(rt, b"no-total.sheet")?;
    job(rt, b"no-slot.sheet")?;
    job(rt, b"no-area.sheet")?;
    job(rt, b"no-forgotten.sheet")
}

fn main(rt: HostRuntime) -> io::Result<()> {
    crc_lines(&rt)?;
    thirteen(&rt)?;
    fourteen(&rt)?;
    large(&rt)?;
    longest(&rt)?;
    probes(&rt)?;
    in_rooms(&rt)?;
    refused(&rt)
}

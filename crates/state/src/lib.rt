// A job kept in a lent scratch buffer. The layout is that of specs/Layout; everything above this crate speaks of the job that
// scratch decodes to (specs/Decodes) and not of bytes.
#![tactic(auto)]

ghost use Rattle.std.specs.Prelude.{List, ℕ, ◌≡◌, ◌≤◌, length};
ghost use Rattle.rules.specs.Limits.{scratch_size};

use std::marker::Model;

pub mod changes;
pub mod controls;
pub mod lists;
pub mod places;
pub mod ranks;
pub mod rows;
pub mod start;
pub mod waits;

// Where each part stands; another limit changes a number of `limits`, and the layout follows.
const PLACES: usize = limits::OP_ROW_SIZE * limits::MOST_OPS;

// A board's place has as many bytes as its row of the second edition (document 02, K6).
const SEAT_SIZE: usize = limits::SECOND_BOARD_ROW_SIZE;

const MESSAGES: usize = PLACES + SEAT_SIZE * limits::MOST_BOARDS;

const RECEIVES: usize = MESSAGES + 2 * limits::MOST_OPS;

const RANKS: usize = RECEIVES + 2 * limits::MOST_OPS;

const WAITS: usize = RANKS + limits::MOST_OPS;

// Scratch as it is lent, with room for every job. Clauses see its bytes.
#[derive(Drop)]
pub struct Scratch<'a> {
    bytes: &'a mut [u8],
}

impl<'a> Model for Scratch<'a> {
    ghost Value = { List ℕ };

    ghost view = { λ c. c.bytes.now };

    ghost invariant = { λ c. scratch_size ≤ length c.bytes.now };
}

impl<'a> Scratch<'a> {
    // The scratch of bytes that are enough.
    pub fn new(bytes: &'a mut [u8]) -> Scratch<'a>
        requires { scratch_size ≤ length bytes.old }
        ensures { result ≡ bytes.entry.now }
    {
        Scratch { bytes }
    }

    // What every scratch keeps. A caller learns it here, at no cost.
    pub fn known(&self)
        ensures { scratch_size ≤ length self.now }
    {
        let _size = self.bytes.len();
    }

    // Its bytes.
    pub fn bytes(&self) -> &[u8]
        ensures { result.now ≡ self.now }
    {
        self.bytes
    }
}

// The state of an operation, with the number that its row tells (document 01, "The report"). Finished is a wait, a probe or a query.
#[derive(Clone, Copy)]
pub enum State {
    NotEntered = 0,
    Pending = 1,
    Buffered = 2,
    Matched = 3,
    Finished = 5,
}

// A verdict that stops a job, with its number.
#[derive(Clone, Copy)]
pub enum StopVerdict {
    Overflow = 3,
    NotReady = 4,
}

// Why a job stopped, and where: the board's rank, and its operation.
#[derive(Clone, Copy)]
pub struct Stop {
    pub verdict: StopVerdict,
    pub rank: usize,
    pub op: usize,
}

// The control block: what is kept of a job beside scratch. Lengths of the two waiting lists, steps taken, and what stopped the job.
// The default is that of a job at its start.
#[derive(Clone, Copy, Default)]
pub struct Control {
    pub messages: usize,
    pub receives: usize,
    pub steps: usize,
    pub stop: Option<Stop>,
}

// One of the two waiting lists: pending messages in order of arrival, posted receives in order of posting. Where it is asked which, a
// match picks a field, a place or a pair of operations; no step hangs on it that a closure could be.
#[derive(Clone, Copy)]
pub enum Queue {
    Messages,
    Receives,
}

// The figures of a store's account: bytes in use, and the most in use after any step.
#[derive(Clone, Copy)]
pub struct StoreFigures {
    pub in_use: usize,
    pub peak: usize,
}

// The place of a board, by value: operations finished, whether the next one is in its waiting half, and the figures of its attached
// buffer and of its standard room.
#[derive(Clone, Copy)]
pub struct BoardPlace {
    pub finished: usize,
    pub waiting: bool,
    pub attached: StoreFigures,
    pub room: StoreFigures,
}

// A job sheet (document 01, "The sheet, byte by byte"; document 02, K6): readers of its fields, tests of an operation's roles, what it
// says of a board's stores, and what is told of one that is refused. No other crate knows where a field stands, which edition a sheet
// is of, or what number a kind has.
#![tactic(auto)]

ghost use Rattle.std.specs.Prelude.{◌≡◌, List, ℕ};
ghost use Rattle.laws.specs.Laid.{Laid};

use std::marker::Model;

pub mod boards;
pub mod header;
pub mod kind;
pub mod ops;
pub mod refusal;
pub mod stores;

// What a service answers: number 0 and place 0, or the number of a refusal and its place. Two numbers and no Result, because C
// calls the services.
#[repr(C)]
#[derive(Clone, Copy)]
pub struct Answer {
    pub number: u32,
    pub place: u64,
}

// A sheet whose header and tables are in place: what refusals 1 to 3 have settled of its bytes. Clauses see the bytes.
#[derive(Drop)]
pub struct Sheet<'a> {
    bytes: &'a [u8],
}

impl<'a> Model for Sheet<'a> {
    ghost Value = { List ℕ };

    ghost view = { λ s. s.bytes.now };

    ghost invariant = { λ s. Laid s.bytes.now };
}

impl<'a> Sheet<'a> {
    // The sheet of bytes that are laid out as one.
    pub fn new(bytes: &'a [u8]) -> Sheet<'a>
        requires { Laid bytes.now }
        ensures { result ≡ bytes.now }
    {
        Sheet { bytes }
    }

    // What every sheet keeps. A caller learns it here, at no cost.
    pub fn known(&self)
        ensures { Laid self.now }
    {
        let _bytes = self.bytes;
    }

    // Its bytes.
    pub fn bytes(&self) -> &'a [u8]
        ensures { result.now ≡ self.now }
    {
        self.bytes
    }
}

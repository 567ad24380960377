// The header: field readers (document 01, "The sheet, byte by byte"), and the edition that its offsets tell (document 02, K6). The
// functions read any bytes that are as long as a header, as refusals 2 to 4 need them; the methods read a sheet.
#![tactic(auto, unfolding(rules::specs::Sheet::second_in))]

ghost use Rattle.std.specs.Prelude.{◌≡◌, ◌<◌, length};
ghost use Rattle.rules.specs.Sheet.{two, sheet_in, P_in, C_in, N_in, L_in, P_of, N_of, second_in};
ghost use Rattle.words.specs.Read.{Word};

use crate::Sheet;

// P, the number of boards.
pub fn boards(s: &[u8]) -> usize
    requires { 15 < length s.now }
    ensures { Word (P_in s.now) result }
{
    words::two_at(s, 0)
}

// C, the number of communicators.
pub fn comms(s: &[u8]) -> usize
    requires { 15 < length s.now }
    ensures { Word (C_in s.now) result }
{
    words::two_at(s, 2)
}

// N, the number of operations.
pub fn ops(s: &[u8]) -> usize
    requires { 15 < length s.now }
    ensures { Word (N_in s.now) result }
{
    words::two_at(s, 4)
}

// L, the number of payload bytes.
pub fn payload(s: &[u8]) -> usize
    requires { 15 < length s.now }
    ensures { Word (L_in s.now) result }
{
    words::two_at(s, 12)
}

// The offset of the board table, as the header tells it.
pub fn boards_offset(s: &[u8]) -> usize
    requires { 15 < length s.now }
    ensures { Word (two s.now 6) result }
{
    words::two_at(s, 6)
}

// The offset of the operation table, as the header tells it.
pub fn ops_offset(s: &[u8]) -> usize
    requires { 15 < length s.now }
    ensures { Word (two s.now 8) result }
{
    words::two_at(s, 8)
}

// The sheet is of the second edition: the operation table stands behind board entries of its size.
pub fn is_second(s: &[u8]) -> bool
    requires { 15 < length s.now }
    ensures { result ≡ second_in s.now }
{
    ops_offset(s) == limits::ops_at(true, boards(s))
}

// The offset of the payload, as the header tells it.
pub fn payload_offset(s: &[u8]) -> usize
    requires { 15 < length s.now }
    ensures { Word (two s.now 10) result }
{
    words::two_at(s, 10)
}

// The CRC, as the header tells it.
pub fn crc(s: &[u8]) -> usize
    requires { 15 < length s.now }
    ensures { Word (two s.now 14) result }
{
    words::two_at(s, 14)
}

impl Sheet<'_> {
    // P, the number of boards.
    pub fn boards(&self) -> usize
        ensures { Word (P_of (sheet_in self.now)) result }
    {
        boards(self.bytes)
    }

    // C, the number of communicators.
    #[tactic(auto, unfolding(rules::specs::Sheet::sheet_in))]
    pub fn comms(&self) -> usize
        ensures { Word (sheet_in self.now).comms result }
    {
        comms(self.bytes)
    }

    // N, the number of operations.
    pub fn ops(&self) -> usize
        ensures { Word (N_of (sheet_in self.now)) result }
    {
        ops(self.bytes)
    }

    // L, the number of payload bytes.
    pub fn payload(&self) -> usize
        ensures { Word (length (sheet_in self.now).payload) result }
    {
        payload(self.bytes)
    }

    // Where the payload starts.
    pub fn payload_offset(&self) -> usize
        ensures { Word (two self.now 10) result }
    {
        payload_offset(self.bytes)
    }

    // The sheet is of the second edition.
    pub fn is_second(&self) -> bool
        ensures { result ≡ second_in self.now }
    {
        is_second(self.bytes)
    }
}

// Board entries by rank: field readers (document 01, "The sheet, byte by byte"; of the second edition document 02, K6).
ghost use Rattle.std.specs.Prelude.{◌≡◌, true, ◌+◌, ◌<◌, length};
ghost use Rattle.rules.specs.Sheet.{sheet_in, second_in, board, P_of};
ghost use Rattle.laws.specs.Laid.{Laid};
ghost use Rattle.sheet.specs.Fields.{BoardAt};
ghost use Rattle.words.specs.Read.{Word};

use crate::{Sheet, header};

// Where the entry of board r stands: four numbers, in the second edition five.
fn at(s: &[u8], r: usize) -> usize
    requires { Laid s.now × (r < P_of (sheet_in s.now)) }
    ensures { BoardAt s.now result (board (sheet_in s.now) r) × (result + 7 < length s.now)
        × (second_in s.now ≡ true → result + 9 < length s.now) }
{
    limits::HEADER_SIZE + limits::boards_size(header::is_second(s), r)
}

impl Sheet<'_> {
    // A board's first operation.
    pub fn first(&self, r: usize) -> usize
        requires { r < P_of (sheet_in self.now) }
        ensures { Word (board (sheet_in self.now) r).first result }
    {
        words::two_at(self.bytes, at(self.bytes, r))
    }

    // How many operations its script has.
    pub fn count(&self, r: usize) -> usize
        requires { r < P_of (sheet_in self.now) }
        ensures { Word (board (sheet_in self.now) r).count result }
    {
        words::two_at(self.bytes, at(self.bytes, r) + 2)
    }

    // The size of its attached buffer.
    pub fn attached(&self, r: usize) -> usize
        requires { r < P_of (sheet_in self.now) }
        ensures { Word (board (sheet_in self.now) r).attached result }
    {
        words::two_at(self.bytes, at(self.bytes, r) + 4)
    }

    // The size of its inbox.
    pub fn inbox(&self, r: usize) -> usize
        requires { r < P_of (sheet_in self.now) }
        ensures { Word (board (sheet_in self.now) r).inbox result }
    {
        words::two_at(self.bytes, at(self.bytes, r) + 6)
    }

    // Its standard room. In the first edition there is none.
    pub fn room(&self, r: usize) -> usize
        requires { r < P_of (sheet_in self.now) }
        ensures { Word (board (sheet_in self.now) r).room result }
    {
        if header::is_second(self.bytes) {
            words::two_at(self.bytes, at(self.bytes, r) + 8)
        } else {
            0
        }
    }
}

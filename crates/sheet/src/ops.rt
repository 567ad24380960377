// Operations by their index: field readers, and tests of their roles (document 01, "The sheet, byte by byte"). The sixteen bytes
// of an operation are found from the header's own offset of the operation table.
#![tactic(auto, unfolding(rules::specs::Sheet::is_send, rules::specs::Sheet::is_standard, rules::specs::Sheet::is_buffered, rules::specs::Sheet::is_ready, rules::specs::Sheet::is_receive, rules::specs::Sheet::is_wait, rules::specs::Sheet::is_probe, rules::specs::Sheet::is_query, rules::specs::Sheet::tells_message, rules::specs::Sheet::tells_completion, rules::specs::Sheet::tells, rules::specs::Sheet::selects, rules::specs::Sheet::only_half, rules::specs::Sheet::names_slot, rules::specs::Sheet::frees_slot, rules::specs::Sheet::is_nonblocking, rules::specs::Sheet::no_half, rules::specs::Sheet::takes_slot, rules::specs::Claims::is_any_source))]

ghost use Rattle.std.specs.Prelude.{◌≡◌, ◌+◌, ◌<◌, length, eqb};
ghost use Rattle.rules.specs.Sheet.{sheet_in, op, N_of, is_send, is_standard, is_buffered, is_ready, is_receive, only_half, no_half, takes_slot, names_slot, frees_slot};
ghost use Rattle.rules.specs.Sheet.{tells_message, tells_completion, tells, selects};
ghost use Rattle.rules.specs.Claims.{is_any_source};
ghost use Rattle.laws.specs.Laid.{Laid};
ghost use Rattle.sheet.specs.Fields.{OpAt};
ghost use Rattle.sheet.specs.Kinds.{Names, kind_number};
ghost use Rattle.words.specs.Read.{Word, Byte};

use crate::kind::{Kind, UnknownKind};
use crate::{Sheet, header};

// Where operation i stands.
fn at(s: &[u8], i: usize) -> usize
    requires { Laid s.now × (i < N_of (sheet_in s.now)) }
    ensures { OpAt s.now result (op (sheet_in s.now) i) × (result + 15 < length s.now) }
{
    header::ops_offset(s) + limits::OP_SIZE * i
}

impl Sheet<'_> {
    // Its kind as the byte that stands there, which need be no kind's number before refusal 6 is asked.
    pub fn kind(&self, i: usize) -> usize
        requires { i < N_of (sheet_in self.now) }
        ensures { Byte (op (sheet_in self.now) i).kind result }
    {
        words::byte_at(self.bytes, at(self.bytes, i))
    }

    // Its kind by name, for the tests of roles below.
    pub fn named_kind(&self, i: usize) -> Result<Kind, UnknownKind>
        requires { i < N_of (sheet_in self.now) }
        ensures { Names (op (sheet_in self.now) i).kind result }
    {
        Kind::try_from(self.bytes[at(self.bytes, i)])
    }

    // Its kind is k. The tests of roles ask kind by kind: from a match over several, the compiler makes more than comparisons of a byte.
    fn is(&self, i: usize, k: Kind) -> bool
        requires { i < N_of (sheet_in self.now) }
        ensures { result ≡ eqb (op (sheet_in self.now) i).kind (kind_number k) }
    {
        self.named_kind(i) == Ok(k)
    }

    // Its flag: 0 blocking, 1 nonblocking.
    pub fn flag(&self, i: usize) -> usize
        requires { i < N_of (sheet_in self.now) }
        ensures { Byte (op (sheet_in self.now) i).flag result }
    {
        words::byte_at(self.bytes, at(self.bytes, i) + 1)
    }

    // A send's destination; a receive's or a probe's source, or any.
    pub fn peer(&self, i: usize) -> usize
        requires { i < N_of (sheet_in self.now) }
        ensures { Word (op (sheet_in self.now) i).peer result }
    {
        words::two_at(self.bytes, at(self.bytes, i) + 2)
    }

    // Its communicator.
    pub fn comm(&self, i: usize) -> usize
        requires { i < N_of (sheet_in self.now) }
        ensures { Word (op (sheet_in self.now) i).comm result }
    {
        words::two_at(self.bytes, at(self.bytes, i) + 4)
    }

    // The field that is zero.
    pub fn zero_field(&self, i: usize) -> usize
        requires { i < N_of (sheet_in self.now) }
        ensures { Word (op (sheet_in self.now) i).zero_field result }
    {
        words::two_at(self.bytes, at(self.bytes, i) + 6)
    }

    // Its tag; a receive or a probe may name any.
    pub fn tag(&self, i: usize) -> usize
        requires { i < N_of (sheet_in self.now) }
        ensures { Word (op (sheet_in self.now) i).tag result }
    {
        words::two_at(self.bytes, at(self.bytes, i) + 8)
    }

    // Where a send's message starts in the payload, a receive's area in its board's inbox.
    pub fn offset(&self, i: usize) -> usize
        requires { i < N_of (sheet_in self.now) }
        ensures { Word (op (sheet_in self.now) i).offset result }
    {
        words::two_at(self.bytes, at(self.bytes, i) + 10)
    }

    // A send's length, a receive's capacity.
    pub fn long(&self, i: usize) -> usize
        requires { i < N_of (sheet_in self.now) }
        ensures { Word (op (sheet_in self.now) i).long result }
    {
        words::two_at(self.bytes, at(self.bytes, i) + 12)
    }

    // Its request slot.
    pub fn slot(&self, i: usize) -> usize
        requires { i < N_of (sheet_in self.now) }
        ensures { Word (op (sheet_in self.now) i).slot result }
    {
        words::two_at(self.bytes, at(self.bytes, i) + 14)
    }

    // TESTS OF KINDS. A send, of any mode.
    pub fn is_send(&self, i: usize) -> bool
        requires { i < N_of (sheet_in self.now) }
        ensures { result ≡ is_send (op (sheet_in self.now) i) }
    {
        self.is(i, Kind::Standard)
            || self.is(i, Kind::Buffered)
            || self.is(i, Kind::Synchronous)
            || self.is(i, Kind::Ready)
    }

    // A standard send.
    pub fn is_standard(&self, i: usize) -> bool
        requires { i < N_of (sheet_in self.now) }
        ensures { result ≡ is_standard (op (sheet_in self.now) i) }
    {
        self.is(i, Kind::Standard)
    }

    // A buffered send.
    pub fn is_buffered(&self, i: usize) -> bool
        requires { i < N_of (sheet_in self.now) }
        ensures { result ≡ is_buffered (op (sheet_in self.now) i) }
    {
        self.is(i, Kind::Buffered)
    }

    // A ready send.
    pub fn is_ready(&self, i: usize) -> bool
        requires { i < N_of (sheet_in self.now) }
        ensures { result ≡ is_ready (op (sheet_in self.now) i) }
    {
        self.is(i, Kind::Ready)
    }

    // A receive.
    pub fn is_receive(&self, i: usize) -> bool
        requires { i < N_of (sheet_in self.now) }
        ensures { result ≡ is_receive (op (sheet_in self.now) i) }
    {
        self.is(i, Kind::Receive)
    }

    // A receive or a probe from any source.
    pub fn is_any_source(&self, i: usize) -> bool
        requires { i < N_of (sheet_in self.now) }
        ensures { result ≡ is_any_source (op (sheet_in self.now) i) }
    {
        self.selects(i) & (self.peer(i) == limits::ANY)
    }

    // ROLES, as rules names them. Tells of the earliest pending message that fits it: a probe.
    pub fn tells_message(&self, i: usize) -> bool
        requires { i < N_of (sheet_in self.now) }
        ensures { result ≡ tells_message (op (sheet_in self.now) i) }
    {
        self.is(i, Kind::Probe)
    }

    // Tells whether the operation that holds its slot is complete: a query.
    pub fn tells_completion(&self, i: usize) -> bool
        requires { i < N_of (sheet_in self.now) }
        ensures { result ≡ tells_completion (op (sheet_in self.now) i) }
    {
        self.is(i, Kind::Query)
    }

    // Tells one or the other.
    pub fn tells(&self, i: usize) -> bool
        requires { i < N_of (sheet_in self.now) }
        ensures { result ≡ tells (op (sheet_in self.now) i) }
    {
        self.is(i, Kind::Probe) || self.is(i, Kind::Query)
    }

    // Names a source and a tag, or any, by which messages are selected.
    pub fn selects(&self, i: usize) -> bool
        requires { i < N_of (sheet_in self.now) }
        ensures { result ≡ selects (op (sheet_in self.now) i) }
    {
        self.is(i, Kind::Receive) || self.is(i, Kind::Probe)
    }

    // Only a waiting half: it has no initiating step.
    pub fn is_only_half(&self, i: usize) -> bool
        requires { i < N_of (sheet_in self.now) }
        ensures { result ≡ only_half (op (sheet_in self.now) i) }
    {
        self.is(i, Kind::Wait) || self.is(i, Kind::Probe) || self.is(i, Kind::Query)
    }

    // Finished after its initiating step. (A byte compared with 1 here and in takes_slot, since refusal 6, which bounds it, comes
    // after these readers.)
    pub fn has_no_half(&self, i: usize) -> bool
        requires { i < N_of (sheet_in self.now) }
        ensures { result ≡ no_half (op (sheet_in self.now) i) }
    {
        self.flag(i) == 1
    }

    // Takes its request slot.
    pub fn takes_slot(&self, i: usize) -> bool
        requires { i < N_of (sheet_in self.now) }
        ensures { result ≡ takes_slot (op (sheet_in self.now) i) }
    {
        self.flag(i) == 1
    }

    // Names a slot that its board holds, and nothing else.
    pub fn names_slot(&self, i: usize) -> bool
        requires { i < N_of (sheet_in self.now) }
        ensures { result ≡ names_slot (op (sheet_in self.now) i) }
    {
        self.is(i, Kind::Wait) || self.is(i, Kind::Query)
    }

    // Frees the slot that it names, once the operation that took it is complete.
    pub fn frees_slot(&self, i: usize) -> bool
        requires { i < N_of (sheet_in self.now) }
        ensures { result ≡ frees_slot (op (sheet_in self.now) i) }
    {
        self.is(i, Kind::Wait) // a query leaves it held
    }
}

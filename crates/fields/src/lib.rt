// Refusal 6: the fields of operations (document 01, "The sheet, byte by byte").
#![tactic(auto, unfolding(rules::specs::Refusal::envelope_good, rules::specs::Refusal::or_any, rules::specs::Refusal::extent_good, rules::specs::Refusal::slot_good, rules::specs::Refusal::wait_good, rules::specs::Refusal::probe_good, rules::specs::Refusal::fields_good))]

ghost use Rattle.std.specs.Prelude.{◌≡◌, ◌<◌, cond};
ghost use Rattle.rules.specs.Sheet.{sheet_in, op, P_of, N_of, is_receive};
ghost use Rattle.rules.specs.Refusal.{envelope_good, extent_good, wait_good, probe_good, fields_good, op_good};
ghost use Rattle.laws.specs.Tabled.{Tabled};
ghost use Rattle.laws.specs.Scripts.{script_broken};
ghost use Rattle.sheet.specs.Refused.{Refuses};

use sheet::Sheet;
use sheet::refusal::{Refusal, Rule, first_broken};

// Peer, communicator and tag of a send, a receive or a probe, among p boards and so many communicators.
fn envelope_is_good(s: &Sheet, i: usize, p: usize, comms: usize) -> bool
    requires { i < N_of (sheet_in s.now) }
    ensures { result ≡ envelope_good p comms (op (sheet_in s.now) i) }
{
    let selects = s.selects(i);
    let from = s.peer(i);
    let label = s.tag(i);
    (from < p || selects && from == limits::ANY)
        && s.comm(i) < comms
        && (label < limits::TAG_LIMIT || selects && label == limits::ANY)
}

// Flag, zero, length, area and slot of a send or a receive. Its area lies in `room` bytes.
fn extent_is_good(s: &Sheet, i: usize, room: usize) -> bool
    requires { i < N_of (sheet_in s.now) }
    ensures { result ≡ extent_good room (op (sheet_in s.now) i) }
{
    let size = s.long(i);
    let end = s.offset(i) + size;
    let slot = s.slot(i);
    let slot_is_good = match s.flag(i) {
        0 => slot == 0,
        1 => slot < limits::SLOT_LIMIT,
        _ => false,
    };
    slot_is_good && s.zero_field(i) == 0 && size <= limits::MOST_LENGTH && end <= room
}

// An operation that names a slot, and nothing else. (Here and below a flag is a byte of the format: that it is 0 or 1 is for these
// rules to find out.)
fn wait_is_good(s: &Sheet, i: usize) -> bool
    requires { i < N_of (sheet_in s.now) }
    ensures { result ≡ wait_good (op (sheet_in s.now) i) }
{
    s.flag(i) == 0
        && s.peer(i) == 0
        && s.comm(i) == 0
        && s.zero_field(i) == 0
        && s.tag(i) == 0
        && s.offset(i) == 0
        && s.long(i) == 0
        && s.slot(i) < limits::SLOT_LIMIT
}

// A probe has an envelope, and nothing else (document 02, K9). By `&`, so that one answer has the whole test and its edit fails there.
fn probe_is_good(s: &Sheet, i: usize) -> bool
    requires { i < N_of (sheet_in s.now) }
    ensures { result ≡ probe_good (op (sheet_in s.now) i) }
{
    ((s.flag(i) == 0) & (s.zero_field(i) == 0))
        & (((s.offset(i) == 0) & (s.long(i) == 0)) & (s.slot(i) == 0))
}

// A receive's room is its board's inbox, a send's the payload.
fn room(s: &Sheet, i: usize, inbox: usize, payload: usize) -> usize
    requires { i < N_of (sheet_in s.now) }
    ensures { result ≡ cond (is_receive (op (sheet_in s.now) i)) inbox payload }
{
    if s.is_receive(i) { inbox } else { payload }
}

// The fields of one operation, among p boards and so many communicators, with the sizes of its board's inbox and of the payload.
fn fields_are_good(
    s: &Sheet,
    i: usize,
    p: usize,
    comms: usize,
    inbox: usize,
    payload: usize,
) -> bool
    requires { i < N_of (sheet_in s.now) }
    ensures { result ≡ fields_good p comms (cond (is_receive (op (sheet_in s.now) i)) inbox payload) (op (sheet_in s.now) i) }
{
    if s.names_slot(i) {
        return wait_is_good(s, i);
    }
    if s.tells_message(i) {
        return envelope_is_good(s, i, p, comms) && probe_is_good(s, i);
    }
    (s.is_send(i) || s.is_receive(i))
        && envelope_is_good(s, i, p, comms)
        && extent_is_good(s, i, room(s, i, inbox, payload))
}

// Refusal 6 in the script of board r.
pub fn script_refusal(s: &Sheet, r: usize) -> Result<(), Refusal>
    requires { Tabled (sheet_in s.now) × (r < P_of (sheet_in s.now)) }
    ensures { Refuses (script_broken 6 (op_good (sheet_in s.now)) (sheet_in s.now) r) result }
{
    let p = s.boards();
    let comms = s.comms();
    let payload = s.payload();
    let inbox = s.inbox(r);
    let first = s.first(r);
    let end = first + s.count(r);
    first_broken(first, end, Rule::Fields, |i| {
        fields_are_good(s, i, p, comms, inbox, payload)
    })
}

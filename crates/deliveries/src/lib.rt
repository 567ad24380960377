// Deliveries (document 01, "How a board steps"). The engine steps without the inboxes; at the end the messages of all matched
// receives are copied in script order. Each copy is lent its own stretch of the inbox, from the start of the receive's area
// to its end, and nothing else.
#![tactic(auto)]

ghost use Rattle.std.specs.Prelude.{◌≡◌, ◌<◌, ◌≤◌, length};
ghost use Rattle.rules.specs.Sheet.{sheet_in, rank_of, inbox_total, P_of, N_of};
ghost use Rattle.rules.specs.Job.{Job};
ghost use Rattle.rules.specs.Step.{copied, delivered};
ghost use Rattle.state.specs.declared.Control.{Control};
ghost use Rattle.simulation.specs.Represents.{Represents};
ghost use Rattle.deliveries.specs.Deliveries.{Sent, InboxAt, Deliverable, replay_in, ScriptDelivered};

use sheet::Sheet;
use state::{Scratch, State};

// How many bytes of message m receive r gets: all, or as many as its capacity where the message is cut.
#[tactic(auto, unfolding(rules::specs::Step::copied))]
fn copied(s: &Sheet, m: usize, r: usize) -> usize
    requires { Sent s.now m r }
    ensures { result ≡ copied (sheet_in s.now) m r }
{
    let size = s.long(m);
    let capacity = s.long(r);
    size.min(capacity)
}

// Message m to receive r, whose board's inbox starts at `start`. The copy is lent the whole area; the bytes behind what it puts
// there keep their values.
fn deliver_message(s: &Sheet, m: usize, r: usize, start: usize, inbox: &mut [u8])
    requires { Sent s.now m r × InboxAt (sheet_in s.now) (rank_of (sheet_in s.now) r) start inbox.old }
    ensures { inbox.new ≡ delivered (sheet_in s.now) m r inbox.old }
{
    let bytes = s.bytes();
    let count = copied(s, m, r);
    let capacity = s.long(r);
    let from = s.payload_offset() + s.offset(m);
    let area = start + s.offset(r);
    let end = area + capacity;
    words::copy(&mut inbox[area..end], 0, bytes, from, count);
}

// Operation i: a receive that is matched has its message delivered.
#[tactic(auto, unfolding(crate::specs::Deliveries::replay_in))]
fn deliver_one(s: &Sheet, c: &Scratch, i: usize, start: usize, inbox: &mut [u8])
    requires { Deliverable s.now c.now × (i < N_of (sheet_in s.now))
        × InboxAt (sheet_in s.now) (rank_of (sheet_in s.now) i) start inbox.old }
    ensures { inbox.new ≡ replay_in (sheet_in s.now) c.now i inbox.old }
{
    if s.is_receive(i) && c.is_in(i, State::Matched) {
        let m = c.partner_of(i);
        deliver_message(s, m, i, start, inbox);
    }
}

// The script of board r, whose inbox starts at `start`.
fn deliver_script(s: &Sheet, c: &Scratch, r: usize, start: usize, inbox: &mut [u8])
    requires { Deliverable s.now c.now × (r < P_of (sheet_in s.now)) × InboxAt (sheet_in s.now) r start inbox.old }
    ensures { ScriptDelivered (sheet_in s.now) c.now r inbox.old inbox.new }
{
    let first = s.first(r);
    for i in first..first + s.count(r) {
        deliver_one(s, c, i, start, inbox);
    }
}

// All scripts, one board after another: the inboxes as lent become the memory of the job that stands in scratch. Inboxes lie
// one after another too, so `start` is a running sum.
pub fn deliver(s: &Sheet, c: &Scratch, inbox: &mut [u8])
    requires { Deliverable s.now c.now × (inbox_total (sheet_in s.now) ≤ length inbox.old) }
    ensures { (t : Control) (x : Job) → Represents s.now inbox.old c.now t x →
        inbox.new ≡ x.memory }
{
    let mut start = 0;
    for r in 0..s.boards() {
        deliver_script(s, c, r, start, inbox);
        start += s.inbox(r);
    }
}

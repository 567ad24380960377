// Operations that tell (document 02, K9): what a probe finds among the pending messages, and what the row of an operation that is
// only a waiting half says after its step. Nothing but that row changes.
#![tactic(auto)]

ghost use Rattle.std.specs.Prelude.{◌≡◌, true};
ghost use Rattle.rules.specs.Sheet.{sheet_in, op, tells_completion, tells};
ghost use Rattle.rules.specs.Job.{Job};
ghost use Rattle.rules.specs.Step.{with_row, first_message, complete_if, waited, probe_row, query_row, half_row, half_ends};
ghost use Rattle.state.specs.Decodes.{Decodes};
ghost use Rattle.simulation.specs.Simulates.{Holds, Simulates};
ghost use Rattle.telling.specs.Telling.{Looks, Found, Finds};

use limits::ABSENT;
use sheet::Sheet;
use state::{Control, Queue, Scratch, State};

// Where the earliest pending message that fits operation i stands in its list.
fn found_at(s: &Sheet, c: &Scratch, t: Control, i: usize) -> Option<usize>
    requires { Holds s.now c.now t (Looks i) }
    ensures { Finds s.now c.now t i result }
{
    search::find(s, c.bytes(), Queue::Messages, t.messages, i)
}

// The step of operation i, which tells, can be taken: a query's always, a probe's where a pending message fits it.
pub fn can_end(s: &Sheet, c: &Scratch, t: Control, i: usize) -> bool
    requires { Holds s.now c.now t (Looks i) × (tells (op (sheet_in s.now) i) ≡ true) }
    ensures { (x : Job) → Decodes (sheet_in s.now) c.now t x →
        result ≡ half_ends (sheet_in s.now) x i }
{
    s.tells_completion(i) || found_at(s, c, t, i).is_some()
}

// Probe i tells source, tag and full length of the k-th pending message, which it found.
fn tell_found(s: &Sheet, c: &mut Scratch, t: Control, i: usize, k: usize)
    requires { Holds s.now c.old t (Looks i) × Found s.now c.old t i k }
    ensures { Simulates s.entry.now c.old t c.new t (Looks i)
        (λ s x. with_row i (probe_row s (first_message s i x.messages)) x) }
{
    let m = c.word_of(Queue::Messages.base(), k);
    let source = c.rank_at(m);
    c.set_told(i, source, s.tag(m), s.long(m));
}

// Probe i tells of the message that it finds.
fn tell_message(s: &Sheet, c: &mut Scratch, t: Control, i: usize)
    requires { Holds s.now c.old t (Looks i) }
    ensures { Simulates s.entry.now c.old t c.new t (Looks i)
        (λ s x. with_row i (probe_row s (first_message s i x.messages)) x) }
{
    match found_at(s, c, t, i) {
        Some(k) => tell_found(s, c, t, i, k),
        None => c.set_state(i, State::Finished),
    }
}

// Query i tells whether the operation that holds its slot is complete.
fn tell_completion(s: &Sheet, c: &mut Scratch, t: Control, i: usize)
    requires { Holds s.now c.old t (Looks i) × (tells_completion (op (sheet_in s.now) i) ≡ true) }
    ensures { Simulates s.entry.now c.old t c.new t (Looks i)
        (λ s x. with_row i (query_row (complete_if x (waited s i))) x) }
{
    let j = c.waited_at(i);
    let answer = usize::from(c.is_complete(j));
    c.set_told(i, ABSENT, ABSENT, answer);
}

// The row of operation i, which is only a waiting half, after its step.
pub fn put_half_row(s: &Sheet, c: &mut Scratch, t: Control, i: usize)
    requires { Holds s.now c.old t (Looks i) }
    ensures { Simulates s.entry.now c.old t c.new t (Looks i)
        (λ s x. with_row i (half_row s x i) x) }
{
    if !s.tells(i) {
        c.set_state(i, State::Finished);
    } else if s.tells_completion(i) {
        tell_completion(s, c, t, i);
    } else {
        tell_message(s, c, t, i);
    }
}

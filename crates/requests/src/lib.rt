// Refusal 7: request slots and areas (document 01, "Slots" and "Areas"), board by board with a table of all slots, so that the
// time is linear in the number of operations.
#![tactic(auto)]

ghost use Rattle.std.specs.Prelude.{◌≡◌, ◌<◌};
ghost use Rattle.rules.specs.Limits.{slot_limit};
ghost use Rattle.rules.specs.Sheet.{sheet_in, op, P_of, N_of};
ghost use Rattle.rules.specs.Refusal.{some_below, request_good};
ghost use Rattle.sheet.specs.Refused.{Refuses};
ghost use Rattle.laws.specs.Tabled.{Tabled};
ghost use Rattle.laws.specs.Fields.{Fielded};
ghost use Rattle.laws.specs.Scripts.{script_broken};
ghost use Rattle.requests.specs.Slots.{hit, table_good, starts_after, ends_after, Slotted};

pub mod forgotten;

use sheet::Sheet;
use sheet::refusal::{Refusal, Rule};

// The start of a slot that nobody holds. (Here and below `as u16`: refusal 6 has bounded what is cast, and try_from would answer an
// error that never comes.)
const FREE: u16 = limits::ABSENT as u16;

// The area of each slot that a board holds: from its start to before its end. Two tables side by side, FREE and no Option: with a
// row of both, refusal 7 takes 1.3 times the instructions, with Options 1.5 to 2.7 times (tried).
#[derive(Drop)]
struct SlotTable {
    starts: [u16; limits::SLOT_LIMIT],
    ends: [u16; limits::SLOT_LIMIT],
}

impl SlotTable {
    // Whether the stretch from `from` to before `to` shares a byte with the area of a held slot. Every row is compared and none
    // ends the loop, so that the compiler can compare several at once.
    fn any_hit(&self, from: u16, to: u16) -> bool
        ensures { result ≡ some_below slot_limit (hit self.now.starts self.now.ends from to) }
    {
        let mut found = false;
        for k in 0..limits::SLOT_LIMIT {
            found |= (from < self.ends[k]) & (self.starts[k] < to);
        }
        found
    }

    // What operation i asks of the table: if it names a slot, that the slot is taken; if it takes one, that the slot is free; if
    // it is a receive, that its area is.
    #[tactic(auto, unfolding(crate::specs::Slots::table_good, crate::specs::Slots::slot_taken, crate::specs::Slots::some_hit, crate::specs::Slots::has_area))]
    fn is_good(&self, s: &Sheet, i: usize) -> bool
        requires { (i < N_of (sheet_in s.now)) × Slotted (op (sheet_in s.now) i) }
        ensures { result ≡ table_good self.now.starts self.now.ends (op (sheet_in s.now) i) }
    {
        let taken = self.starts[s.slot(i)] != FREE;
        if s.names_slot(i) {
            return taken;
        }
        if s.takes_slot(i) && taken {
            return false;
        }
        let from = s.offset(i);
        let capacity = s.long(i);
        !(s.is_receive(i) && 0 < capacity && self.any_hit(from as u16, (from + capacity) as u16))
    }

    // What operation i leaves in the table: its slot free if it frees it; if it takes it, with its area there.
    #[tactic(auto, unfolding(crate::specs::Slots::starts_after, crate::specs::Slots::ends_after, crate::specs::Slots::area_from, crate::specs::Slots::area_to, crate::specs::Slots::has_area))]
    fn note(&mut self, s: &Sheet, i: usize)
        requires { (i < N_of (sheet_in s.now)) × Slotted (op (sheet_in s.now) i) }
        ensures { (self.new.starts ≡ starts_after (op (sheet_in s.now) i) self.old.starts)
            × (self.new.ends ≡ ends_after (op (sheet_in s.now) i) self.old.ends) }
    {
        let slot = s.slot(i);
        if s.frees_slot(i) {
            (self.starts[slot], self.ends[slot]) = (FREE, 0);
        } else if s.takes_slot(i) {
            let from = s.offset(i);
            let size = s.long(i);
            (self.starts[slot], self.ends[slot]) = if s.is_receive(i) && 0 < size {
                (from as u16, (from + size) as u16)
            } else {
                (0, 0)
            };
        }
    }
}

// Refusal 7 in the script of board r.
pub fn script_refusal(s: &Sheet, r: usize) -> Result<(), Refusal>
    requires { Tabled (sheet_in s.now) × Fielded (sheet_in s.now) × (r < P_of (sheet_in s.now)) }
    ensures { Refuses (script_broken 7 (request_good (sheet_in s.now)) (sheet_in s.now) r) result }
{
    s.known();
    let mut table = SlotTable {
        starts: [FREE; limits::SLOT_LIMIT],
        ends: [0; limits::SLOT_LIMIT],
    };
    let first = s.first(r);
    for i in first..first + s.count(r) {
        if !table.is_good(s, i) {
            return Err(Refusal {
                rule: Rule::Requests,
                place: i,
            });
        }
        table.note(s, i);
    }
    Ok(())
}

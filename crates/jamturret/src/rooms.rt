// A call's sheet laid out, or refusals 1 to 8: the sheet's, else the first lent room that is short (document 01, "When the desk
// says no").
#![tactic(auto, unfolding(rules::specs::Service::room_refusal, rules::specs::Service::run_refusal, rules::specs::Refusal::or_else, rules::specs::Refusal::refusal, rules::specs::Service::Answers))]

ghost use Rattle.std.specs.Prelude.{◌≡◌, IfOk};
ghost use Rattle.rules.specs.Sheet.{second_in, sheet_in, inbox_total};
ghost use Rattle.rules.specs.Service.{room_refusal, run_refusal};
ghost use Rattle.sheet.specs.Refused.{Refuses};

use refusals::check;
use sheet::Sheet;
use sheet::refusal::{Refusal, Rule, ensure};

// The inboxes of all boards together.
fn inbox_total(s: &Sheet) -> usize
    ensures { result ≡ inbox_total (sheet_in s.now) }
{
    let mut total = 0;
    for r in 0..s.boards() {
        total += s.inbox(r);
    }
    total
}

// Refusal 8: place 1 inbox, 2 report, whose rows are of the sheet's edition (document 02, K6), 3 order out, 4 scratch.
fn short(
    s: &Sheet,
    inbox: usize,
    report: usize,
    order: usize,
    scratch: usize,
) -> Result<(), Refusal>
    ensures { Refuses (room_refusal (second_in s.now) (sheet_in s.now) inbox report order scratch) result }
{
    ensure(inbox_total(s) <= inbox, Rule::Rooms, 1)?;
    ensure(report::size(s) <= report, Rule::Rooms, 2)?;
    ensure(limits::order_room(s.ops()) <= order, Rule::Rooms, 3)?;
    ensure(limits::SCRATCH_SIZE <= scratch, Rule::Rooms, 4)
}

// The sheet laid out, where it and the rooms are accepted; else its refusal, or the first short room's.
pub fn refusal(
    bytes: &[u8],
    inbox: usize,
    report: usize,
    order: usize,
    scratch: usize,
) -> Result<Sheet<'_>, Refusal>
    ensures refuses { Refuses (run_refusal bytes.now inbox report order scratch) result }
    ensures sheet { IfOk result (λ sheet. sheet ≡ bytes.now) }
{
    let sheet = check::check(bytes)?;
    short(&sheet, inbox, report, order, scratch)?;
    Ok(sheet)
}

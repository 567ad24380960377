// Refusal 5: board entries (document 01, "The sheet, byte by byte"; their rooms: document 02, K6).
ghost use Rattle.std.specs.Prelude.{◌≡◌, ◌<◌, suc};
ghost use Rattle.rules.specs.Sheet.{sheet_in, P_of, counts_before, inbox_start};
ghost use Rattle.rules.specs.Refusal.{board_good, boards_refusal};
ghost use Rattle.sheet.specs.Refused.{Refuses};

use sheet::Sheet;
use sheet::refusal::{Refusal, Rule, ensure};

// Board r's entry is good, with the counts of the boards before it and the inboxes up to it.
#[tactic(auto, unfolding(rules::specs::Refusal::board_good))]
fn entry_is_good(s: &Sheet, r: usize, counted: usize, total: usize) -> bool
    requires { (r < P_of (sheet_in s.now)) × (counted ≡ counts_before (sheet_in s.now) r)
        × (total ≡ inbox_start (sheet_in s.now) (suc r)) }
    ensures { result ≡ board_good (sheet_in s.now) r }
{
    s.first(r) == counted
        && s.attached(r) <= limits::MOST_ATTACHED
        && total <= limits::MOST_INBOX
        && s.room(r) <= limits::MOST_ROOM
}

// Refusal 5: the first bad entry; where all are good, P if the counts don't total N.
pub fn refusal(s: &Sheet) -> Result<(), Refusal>
    ensures { Refuses (boards_refusal (sheet_in s.now)) result }
{
    let p = s.boards();
    let mut counted = 0;
    let mut total = 0;
    for r in 0..p {
        total += s.inbox(r);
        ensure(entry_is_good(s, r, counted, total), Rule::Boards, r)?;
        counted += s.count(r);
    }
    ensure(counted == s.ops(), Rule::Boards, p)
}

// Calls of follow and run. Sheet and rooms are asked first. Then the steps are taken in scratch alone; only behind them are deliveries
// made and the report written, so that a late refusal 9 leaves inbox and report untouched; last, scratch is zeroed whole.
ghost use Rattle.std.specs.Prelude.{◌≤◌, length};
ghost use Rattle.rules.specs.Limits.{report_size, order_room};
ghost use Rattle.rules.specs.Sheet.{second_in, sheet_in, P_of, N_of, inbox_total};
ghost use Rattle.rules.specs.Service.{FollowSays, RunSays};
ghost use Rattle.sheet.specs.Refused.{number_told, place_told};
ghost use Rattle.simulation.specs.Represents.{Represented};
ghost use Rattle.jamturret.specs.Rooms.{Ready};
ghost use Rattle.jamturret.specs.Outcomes.{Finished, FollowDoes, RunDoes};

use crate::rooms;
use orders::{follow, run};
use sheet::Sheet;
use sheet::refusal::{Refusal, Rule};
use state::{Control, Scratch};

// The end of both, for the job that stands in scratch: its deliveries and its report.
fn finish(sheet: &Sheet, scratch: &Scratch, t: Control, inbox: &mut [u8], out: &mut [u8])
    requires { Represented sheet.now scratch.now t × (inbox_total (sheet_in sheet.now) ≤ length inbox.old)
        × (report_size (second_in sheet.now) (P_of (sheet_in sheet.now)) (N_of (sheet_in sheet.now)) ≤ length out.old) }
    ensures { Finished sheet.now t inbox.old inbox.new out.old out.new scratch.now }
{
    deliveries::deliver(sheet, scratch, inbox);
    report::write(sheet, scratch, t, out);
}

// Follow where sheet and rooms are accepted: refusal 9 at the first rank of the order that isn't able, or the job that the order
// leads to.
fn follow_in_rooms(
    sheet: &Sheet,
    order: &[u8],
    inbox: &mut [u8],
    out: &mut [u8],
    scratch: &mut [u8],
) -> Result<(), Refusal>
    requires { Ready sheet.now (length inbox.old) (length out.old) (order_room (N_of (sheet_in sheet.now)))
        (length scratch.old) }
    ensures { FollowDoes sheet.entry.now order.entry.now (number_told result) (place_told result)
        inbox.old inbox.new out.old out.new
        scratch.old scratch.new }
{
    let mut held = Scratch::new(scratch);
    let outcome = follow::follow(sheet, order, &mut held);
    let refused_at = outcome.refused_at;
    if let Some(place) = refused_at {
        words::zero(scratch);
        return Err(Refusal {
            rule: Rule::Order,
            place,
        });
    }
    finish(sheet, &held, outcome.control, inbox, out);
    words::zero(scratch);
    Ok(())
}

// Run where sheet and rooms are accepted: the job that the desk's own choice leads to, and that order written down.
fn run_in_rooms(
    sheet: &Sheet,
    inbox: &mut [u8],
    out: &mut [u8],
    order: &mut [u8],
    scratch: &mut [u8],
)
    requires { Ready sheet.now (length inbox.old) (length out.old) (length order.old) (length scratch.old) }
    ensures { RunDoes sheet.entry.now inbox.old inbox.new out.old out.new
        order.old order.new scratch.old scratch.new }
{
    let mut held = Scratch::new(scratch);
    let t = run::run(sheet, &mut held, order);
    finish(sheet, &held, t, inbox, out);
    words::zero(scratch);
}

// A call of follow. It is lent no room for an order: the longest one is never short.
pub fn follow(
    sheet: &[u8],
    order: &[u8],
    inbox: &mut [u8],
    report: &mut [u8],
    scratch: &mut [u8],
) -> Result<(), Refusal>
    ensures { FollowSays sheet.now order.now (number_told result) (place_told result)
        inbox.old inbox.new report.old report.new
        scratch.old scratch.new }
{
    let sheet = rooms::refusal(
        sheet,
        inbox.len(),
        report.len(),
        limits::MOST_ORDER,
        scratch.len(),
    )?;
    follow_in_rooms(&sheet, order, inbox, report, scratch)
}

// A call of run.
pub fn run(
    sheet: &[u8],
    inbox: &mut [u8],
    report: &mut [u8],
    order: &mut [u8],
    scratch: &mut [u8],
) -> Result<(), Refusal>
    ensures { RunSays sheet.now (number_told result) (place_told result)
        inbox.old inbox.new report.old report.new
        order.old order.new scratch.old scratch.new }
{
    let sheet = rooms::refusal(sheet, inbox.len(), report.len(), order.len(), scratch.len())?;
    run_in_rooms(&sheet, inbox, report, order, scratch);
    Ok(())
}

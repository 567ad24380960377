// What the judge prints and what it tells, laid out in lent rooms.
ghost use Rattle.std.specs.Prelude.{◌≡◌, ◌++◌, ◌∷◌, [], ◌<◌, length};
ghost use Rattle.judge.specs.Printed.{most_report, line_size, told_size, refusal_line, report_line, header_numbers, facts_line, printed, told as told_line};
ghost use Rattle.judge.specs.Calls.{Ran, Reported, Lines};

use crate::rooms;
use jamturret::{jamturret_premise, jamturret_run};
use sheet::{Answer, Sheet};

// The longest line: three places a byte of a report.
pub const LINE_SIZE: usize = 3 * limits::MOST_REPORT;

// The longest line that is told: eleven numbers.
pub const TOLD_SIZE: usize = 11 * text::MOST_PLACES;

// How many bytes of text stand at the start of each room.
#[derive(Clone, Copy)]
pub struct Sizes {
    pub line: usize,
    pub told: usize,
}

// Runs a sheet and lays out what is printed and what is told of it.
pub fn lay_out(sheet: &[u8], line: &mut [u8], told: &mut [u8]) -> Sizes
    requires { (line_size ≡ length line.old) × (told_size ≡ length told.old) }
    ensures { Lines (printed sheet.now) (told_line sheet.now) result.line line.new result.told told.new }
{
    let mut report = rooms::report();
    let answer = run_from_zeros(sheet, &mut report);
    let number = answer.number;
    if number != 0 {
        return refused(number as u64, answer.place, line, told);
    }
    reported(sheet, &report, line, told)
}

// Runs a sheet from zeroed inboxes; its report is put at the start of a room. Run's rooms are of the largest sizes that a sheet
// can ask for.
fn run_from_zeros(sheet: &[u8], report: &mut [u8]) -> Answer
    requires { most_report ≡ length report.old }
    ensures { Ran sheet.now result.number result.place report.new }
{
    let mut inbox = [0u8; limits::MOST_INBOX];
    let mut order = rooms::order();
    let mut scratch = rooms::scratch();
    jamturret_run(sheet, &mut inbox, report, &mut order, &mut scratch)
}

// A refusal is printed and told alike: number and place.
fn refused(number: u64, place: u64, line: &mut [u8], told: &mut [u8]) -> Sizes
    requires { (line_size ≡ length line.old) × (told_size ≡ length told.old) }
    ensures { Lines (refusal_line number place) (refusal_line number place) result.line line.new result.told told.new }
{
    let numbers = [number, place];
    let size = text::numbers_line(&numbers, line);
    let told_size = text::numbers_line(&numbers, told);
    Sizes {
        line: size,
        told: told_size,
    }
}

// Of a report its own bytes are printed; told are its header in numbers, and what premise answers.
fn reported(sheet: &[u8], report: &[u8], line: &mut [u8], told: &mut [u8]) -> Sizes
    requires { Reported sheet.now report.now × (line_size ≡ length line.old) × (told_size ≡ length told.old) }
    ensures { Lines (report_line sheet.now) (facts_line sheet.now) result.line line.new result.told told.new }
{
    let own = report::size(&Sheet::new(sheet));
    text::hex_line(&report[..own], line);
    let answer = jamturret_premise(sheet);
    let numbers = facts(report, answer.number as u64, answer.place);
    let told_size = text::numbers_line(&numbers, told);
    Sizes {
        line: 3 * own,
        told: told_size,
    }
}

// The numbers of a report's header, and two more behind them.
fn facts(report: &[u8], number: u64, place: u64) -> [u64; 11]
    requires { 15 < length report.now }
    ensures { result ≡ header_numbers report.now ++ (number ∷ place ∷ []) }
{
    [
        words::byte_at(report, 0) as u64,
        words::byte_at(report, 1) as u64,
        words::two_at(report, 2) as u64,
        words::two_at(report, 4) as u64,
        words::two_at(report, 6) as u64,
        words::two_at(report, 8) as u64,
        words::two_at(report, 10) as u64,
        words::two_at(report, 12) as u64,
        words::two_at(report, 14) as u64,
        number,
        place,
    ]
}

// The report (document 01, "The report"), made from what scratch and the control block hold of a job: a header, a row a board, a
// row an operation. Each function writes one stretch; the room behind the report keeps its bytes.
#![tactic(auto)]

ghost use Rattle.std.specs.Prelude.{◌≡◌, true, ◌+◌, ◌*◌, ◌<◌, ◌≤◌, length};
ghost use Rattle.rules.specs.Limits.{most_ops, most_boards, report_header_size, board_row_size, op_row_size, report_size};
ghost use Rattle.rules.specs.Sheet.{second_in, sheet_in, P_of, N_of};
ghost use Rattle.rules.specs.Step.{splice};
ghost use Rattle.rules.specs.Order.{none_able};
ghost use Rattle.rules.specs.Report.{all_finished, verdict_of, header_bytes, board_state, room_bytes, board_row, report};
ghost use Rattle.rules.specs.Service.{in_front};
ghost use Rattle.state.specs.declared.Control.{Control};
ghost use Rattle.state.specs.Layout.{seat_at};
ghost use Rattle.state.specs.Decoded.{place_in};
ghost use Rattle.simulation.specs.Represents.{Represented};
ghost use Rattle.orders.specs.Jobs.{Every};
ghost use Rattle.report.specs.Numbers.{board_state_number, verdict_number};
ghost use Rattle.report.specs.Report.{stop_rank as report_stop_rank, stop_op as report_stop_op, row_front, front_bytes, back_bytes};
ghost use Rattle.report.specs.ReportCounts.{message_row, receive_row, cut_row, RowsCounted};
ghost use Rattle.report.specs.ReportRows.{row_in, joined, board_row_at, four};

use account::Store;
use orders::lowest;
use sheet::Sheet;
use state::{Control, Scratch, State, StopVerdict};
use steps::able;

// Stop rank where nothing stopped the job.
const NO_RANK: usize = 255;

// Bytes of an operation's row before the two zero bytes at its end.
const ROW_FIGURES: usize = 10;

// Four numbers side by side.
fn put_four(out: &mut [u8], at: usize, k: usize, l: usize, m: usize, n: usize)
    requires { at + 8 ≤ length out.old }
    ensures { out.new ≡ splice out.old at (four k l m n) }
{
    words::put_pair(out, at, k, l);
    words::put_pair(out, at + 4, m, n);
}

// The row of operation i. Scratch has it in the report's own format, but for the two zero bytes at its end.
fn op_row(c: &Scratch, i: usize, at: usize, out: &mut [u8])
    requires { (i < most_ops) × (at + op_row_size ≤ length out.old) }
    ensures { out.new ≡ splice out.old at (row_in c.now i) }
{
    c.known();
    let bytes = c.bytes();
    words::copy(out, at, bytes, limits::OP_ROW_SIZE * i, ROW_FIGURES);
    words::put_two(out, at + ROW_FIGURES, 0);
}

// The rows of n operations.
fn op_rows(c: &Scratch, n: usize, at: usize, out: &mut [u8])
    requires { (n ≤ most_ops) × (at + op_row_size * n ≤ length out.old) }
    ensures { out.new ≡ splice out.old at (joined (row_in c.now) 0 n) }
{
    for i in 0..n {
        op_row(c, i, at + limits::OP_ROW_SIZE * i, out);
    }
}

// A board's state, with its number.
#[derive(Clone, Copy)]
enum BoardState {
    Neither = 0,
    Able = 1,
    Finished = 2,
}

impl From<BoardState> for usize {
    ghost from_gives = { λ state n. n ≡ board_state_number state };

    fn from(state: BoardState) -> usize {
        state as usize
    }
}

// The state of board r.
fn board_state(s: &Sheet, c: &Scratch, t: Control, r: usize) -> BoardState
    requires { Represented s.now c.now t × (r < P_of (sheet_in s.now)) }
    ensures { Every s.now c.now t (λ x. board_state_number result ≡ board_state (sheet_in s.now) x r) }
{
    if s.count(r) <= c.finished_of(r) {
        BoardState::Finished
    } else if able::is_able(s, c, t, r) {
        BoardState::Able
    } else {
        BoardState::Neither
    }
}

// Where the row of board r stands in a report of an edition; that of board P would stand where the rows of operations start.
fn board_row_place(second: bool, r: usize) -> usize
    requires { r < 65536 }
    ensures { result ≡ board_row_at second r }
{
    limits::REPORT_HEADER_SIZE + limits::board_rows_size(second, r)
}

// The front of board r's row, which both editions have: operations finished, buffer in use, peak, state and a zero byte.
fn row_front(s: &Sheet, c: &Scratch, t: Control, r: usize, at: usize, out: &mut [u8])
    requires { Represented s.now c.now t × (r < P_of (sheet_in s.now)) × (at + 8 ≤ length out.old) }
    ensures { Every s.now c.now t
        (λ x. out.new ≡ splice out.old at (row_front (sheet_in s.now) x r)) }
{
    let finished = c.finished_of(r);
    let attached = c.figures_of(r, Store::Attached);
    let state = board_state(s, c, t, r);
    put_four(
        out,
        at,
        finished,
        attached.in_use,
        attached.peak,
        usize::from(state),
    );
}

// What the second edition has besides: room in use, and its peak (document 02, K6).
fn row_room(c: &Scratch, r: usize, at: usize, out: &mut [u8])
    requires { (r < most_boards) × (at + 4 ≤ length out.old) }
    ensures { out.new ≡ splice out.old at (room_bytes true (place_in c.now (seat_at r))) }
{
    let room = c.figures_of(r, Store::Room);
    words::put_pair(out, at, room.in_use, room.peak);
}

// The row of board r.
fn board_row(s: &Sheet, c: &Scratch, t: Control, second: bool, r: usize, out: &mut [u8])
    requires { Represented s.now c.now t × (r < P_of (sheet_in s.now))
        × (board_row_at second r + board_row_size second ≤ length out.old) }
    ensures { Every s.now c.now t
        (λ x. out.new ≡ splice out.old (board_row_at second r) (board_row second (sheet_in s.now) x r)) }
{
    let at = board_row_place(second, r);
    row_front(s, c, t, r, at, out);
    if second {
        row_room(c, r, at + 8, out);
    }
}

// The rows of all boards.
fn board_rows(s: &Sheet, c: &Scratch, t: Control, second: bool, out: &mut [u8])
    requires { Represented s.now c.now t × (board_row_at second (P_of (sheet_in s.now)) ≤ length out.old) }
    ensures { Every s.now c.now t
        (λ x. out.new ≡ splice out.old report_header_size
        (joined (board_row second (sheet_in s.now) x) 0 (P_of (sheet_in s.now)))) }
{
    for r in 0..s.boards() {
        board_row(s, c, t, second, r, out);
    }
}

// Whether all boards are finished.
fn all_are_finished(s: &Sheet, c: &Scratch) -> bool
    ensures { (t : Control) → Every s.now c.now t
        (λ x. result ≡ all_finished (P_of (sheet_in s.now)) 0 (sheet_in s.now) x) }
{
    s.known();
    (0..s.boards()).all(|r| s.count(r) <= c.finished_of(r))
}

// Whether no board is able: there is no lowest rank that is.
fn none_is_able(s: &Sheet, c: &Scratch, t: Control) -> bool
    requires { Represented s.now c.now t }
    ensures { Every s.now c.now t (λ x. result ≡ none_able (sheet_in s.now) x) }
{
    lowest::lowest(s, c, t).is_none()
}

// What became of a job.
#[derive(Clone, Copy)]
enum Verdict {
    Going,
    Finished,
    Deadlock,
    Stopped(StopVerdict),
}

impl From<Verdict> for usize {
    ghost from_gives = { λ v n. n ≡ verdict_number v };

    fn from(verdict: Verdict) -> usize {
        match verdict {
            Verdict::Going => 0,
            Verdict::Finished => 1,
            Verdict::Deadlock => 2,
            Verdict::Stopped(by) => usize::from(by),
        }
    }
}

// The verdict: what stopped the job; else finished where all boards are, deadlock where none is able.
fn verdict_of(s: &Sheet, c: &Scratch, t: Control) -> Verdict
    requires { Represented s.now c.now t }
    ensures { Every s.now c.now t
        (λ x. verdict_number result ≡ verdict_of x.stop (sheet_in s.now) x) }
{
    if let Some(stop) = t.stop {
        Verdict::Stopped(stop.verdict)
    } else if all_are_finished(s, c) {
        Verdict::Finished
    } else if none_is_able(s, c, t) {
        Verdict::Deadlock
    } else {
        Verdict::Going
    }
}

// The rank of the board that stopped the job.
fn stop_rank(t: Control) -> usize
    ensures { result ≡ report_stop_rank t }
{
    t.stop.map_or(NO_RANK, |stop| stop.rank)
}

// The operation that stopped it.
fn stop_op(t: Control) -> usize
    ensures { result ≡ report_stop_op t }
{
    t.stop.map_or(limits::ABSENT, |stop| stop.op)
}

// Whether operation i is a pending message: a buffered one counts, too.
#[tactic(auto, unfolding(crate::specs::ReportCounts::message_row))]
fn message_at(s: &Sheet, c: &Scratch, i: usize) -> bool
    requires { i < N_of (sheet_in s.now) }
    ensures { result ≡ message_row (sheet_in s.now) c.now i }
{
    s.known();
    s.is_send(i) && (c.is_in(i, State::Pending) || c.is_in(i, State::Buffered))
}

// Whether it is a pending receive.
#[tactic(auto, unfolding(crate::specs::ReportCounts::receive_row))]
fn receive_at(s: &Sheet, c: &Scratch, i: usize) -> bool
    requires { i < N_of (sheet_in s.now) }
    ensures { result ≡ receive_row (sheet_in s.now) c.now i }
{
    s.known();
    s.is_receive(i) && c.is_in(i, State::Pending)
}

// Whether its message was cut. (A byte of the report's format, in which 1 says so.)
#[tactic(auto, unfolding(crate::specs::ReportCounts::cut_row))]
fn cut_at(c: &Scratch, i: usize) -> bool
    requires { i < most_ops }
    ensures { result ≡ cut_row c.now i }
{
    c.cut_of(i) == 1
}

// Pending messages, pending receives and cut messages.
#[derive(Clone, Copy, Default)]
struct Counts {
    messages: usize,
    receives: usize,
    cut: usize,
}

// The three of them, in one pass over the rows.
#[tactic(auto, using(crate::specs::ReportCounts::counted_none))]
fn count_rows(s: &Sheet, c: &Scratch) -> Counts
    ensures { RowsCounted (sheet_in s.now) c.now result.messages result.receives result.cut }
{
    let mut counts = Counts::default();
    s.known();
    for i in 0..s.ops() {
        counts.messages += usize::from(message_at(s, c, i));
        counts.receives += usize::from(receive_at(s, c, i));
        counts.cut += usize::from(cut_at(c, i));
    }
    counts
}

// The header's first eight bytes: verdict and stop rank, a byte each, stop operation, steps, P.
fn header_front(s: &Sheet, t: Control, v: Verdict, out: &mut [u8])
    requires { (report_stop_rank t < 256) × (report_header_size ≤ length out.old) }
    ensures { out.new ≡ splice out.old 0 (front_bytes (verdict_number v) t (P_of (sheet_in s.now))) }
{
    let front = usize::from(v) + 256 * stop_rank(t);
    let op = stop_op(t);
    let p = s.boards();
    put_four(out, 0, front, op, t.steps, p);
}

// Its last eight: N, pending messages, pending receives, cut messages.
fn header_back(s: &Sheet, c: &Scratch, out: &mut [u8])
    requires { report_header_size ≤ length out.old }
    ensures { out.new ≡ splice out.old 8 (back_bytes (sheet_in s.now) c.now) }
{
    let k = count_rows(s, c);
    let n = s.ops();
    put_four(out, 8, n, k.messages, k.receives, k.cut);
}

// The header.
fn put_header(s: &Sheet, c: &Scratch, t: Control, out: &mut [u8])
    requires { Represented s.now c.now t × (report_header_size ≤ length out.old) }
    ensures { Every s.now c.now t
        (λ x. out.new ≡ splice out.old 0 (header_bytes (sheet_in s.now) x)) }
{
    let v = verdict_of(s, c, t);
    header_front(s, t, v, out);
    header_back(s, c, out);
}

// How many bytes a sheet's report has: its board rows are of the sheet's edition (document 02, K6). Sums of it never wrap.
pub fn size(s: &Sheet) -> usize
    ensures { (result ≡ report_size (second_in s.now) (P_of (sheet_in s.now)) (N_of (sheet_in s.now)))
        × (result ≤ report_header_size + board_row_size true * most_boards + op_row_size * most_ops) }
{
    s.known();
    limits::report_size(s.is_second(), s.boards(), s.ops())
}

// The whole report, in front of what else the room holds; its board rows are of the sheet's edition (document 02, K6).
pub fn write(s: &Sheet, c: &Scratch, t: Control, out: &mut [u8])
    requires { Represented s.now c.now t
        × (report_size (second_in s.now) (P_of (sheet_in s.now)) (N_of (sheet_in s.now)) ≤ length out.old) }
    ensures { Every s.now c.now t
        (λ x. out.new ≡ in_front (report (second_in s.now) (sheet_in s.now) x) out.old) }
{
    put_header(s, c, t, out);
    let second = s.is_second();
    board_rows(s, c, t, second, out);
    let n = s.ops();
    let at = board_row_place(second, s.boards());
    op_rows(c, n, at, out);
}

// The numbers of documents 01 and 02, each under the name that rules/specs/Limits gives it. Code cites the names; a change of one
// is made there and here.
#![tactic(auto)]

ghost use Rattle.std.specs.Prelude.{◌≡◌, cond, ◌*◌, ◌<◌, ◌≤◌};
ghost use Rattle.rules.specs.Limits.{boards_size, board_rows_size, ops_at, payload_at, sheet_size, report_size, order_room};

// "The sheet, byte by byte": boards, communicators, operations (document 02, K11) and payload bytes at the most.
pub const MOST_BOARDS: usize = 16;

pub const MOST_COMMS: usize = 8;

pub const MOST_OPS: usize = 2048;

pub const MOST_PAYLOAD: usize = 16384;

// Attached buffer size of a board; the inboxes of all boards together.
pub const MOST_ATTACHED: usize = 16384;

pub const MOST_INBOX: usize = 16384;

// Standard room of a board (document 02, K6).
pub const MOST_ROOM: usize = 16384;

// What a buffered message costs in an attached buffer beside its bytes (MPI_BSEND_OVERHEAD).
pub const BSEND_OVERHEAD: usize = 32;

// Tags are below this, lengths and capacities at most that, request slots below that.
pub const TAG_LIMIT: usize = 32768;

pub const MOST_LENGTH: usize = 4096;

pub const SLOT_LIMIT: usize = 32;

// Any source (MPI_ANY_SOURCE), any tag (MPI_ANY_TAG), and in a report: none.
pub const ANY: usize = 65535;

pub const ABSENT: usize = 65535;

// Sizes of a sheet's header and of its operations.
pub const HEADER_SIZE: usize = 16;

pub const OP_SIZE: usize = 16;

// EDITIONS (document 02, K6): a board entry and a board's row of the report, in the first edition and in the second.
pub const BOARD_SIZE: usize = 8;

pub const SECOND_BOARD_SIZE: usize = 10;

pub const BOARD_ROW_SIZE: usize = 8;

pub const SECOND_BOARD_ROW_SIZE: usize = 12;

// The longest sheet, of the second edition.
pub const MOST_SHEET: usize = HEADER_SIZE
    + SECOND_BOARD_SIZE * MOST_BOARDS
    + OP_SIZE * MOST_OPS
    + MOST_PAYLOAD;

// "The report": a header, a row a board, a row an operation; the longest one, of the second edition.
pub const REPORT_HEADER_SIZE: usize = 16;

pub const OP_ROW_SIZE: usize = 12;

pub const MOST_REPORT: usize = REPORT_HEADER_SIZE
    + SECOND_BOARD_ROW_SIZE * MOST_BOARDS
    + OP_ROW_SIZE * MOST_OPS;

// Lent rooms: order out for the longest script, and scratch (document 02, K11).
pub const MOST_ORDER: usize = 2 * MOST_OPS;

pub const SCRATCH_SIZE: usize = 65536;

// The bytes of n entries of an edition, which have one size in the first and another in the second. What a size is and that it is
// small stand together, so that sums of sizes never wrap.
fn entries_size<const FIRST: usize, const SECOND: usize>(second: bool, n: usize) -> usize
    requires { (n < 65536) × (FIRST ≤ 16) × (SECOND ≤ 16) }
    ensures { (result ≡ cond second SECOND FIRST * n) × (result < 1048576) }
{
    if second { SECOND * n } else { FIRST * n }
}

// The bytes of p board entries.
#[tactic(auto, unfolding(rules::specs::Limits::boards_size))]
pub fn boards_size(second: bool, p: usize) -> usize
    requires { p < 65536 }
    ensures { (result ≡ boards_size second p) × (result < 1048576) }
{
    entries_size::<BOARD_SIZE, SECOND_BOARD_SIZE>(second, p)
}

// The bytes of p board rows.
#[tactic(auto, unfolding(rules::specs::Limits::board_rows_size))]
pub fn board_rows_size(second: bool, p: usize) -> usize
    requires { p < 65536 }
    ensures { (result ≡ board_rows_size second p) × (result < 1048576) }
{
    entries_size::<BOARD_ROW_SIZE, SECOND_BOARD_ROW_SIZE>(second, p)
}

// Where the operation table stands in a sheet of p boards.
pub fn ops_at(second: bool, p: usize) -> usize
    requires { p < 65536 }
    ensures { (result ≡ ops_at second p) × (result < 2097152) }
{
    HEADER_SIZE + boards_size(second, p)
}

// Where the payload stands in a sheet of p boards and n operations.
pub fn payload_at(second: bool, p: usize, n: usize) -> usize
    requires { (p < 65536) × (n < 65536) }
    ensures { (result ≡ payload_at second p n) × (result < 4194304) }
{
    ops_at(second, p) + OP_SIZE * n
}

// The bytes of a sheet with l bytes of payload.
pub fn sheet_size(second: bool, p: usize, n: usize, l: usize) -> usize
    requires { (p < 65536) × (n < 65536) × (l < 65536) }
    ensures { result ≡ sheet_size second p n l }
{
    payload_at(second, p, n) + l
}

// The bytes of a report.
pub fn report_size(second: bool, p: usize, n: usize) -> usize
    requires { (p < 65536) × (n < 65536) }
    ensures { result ≡ report_size second p n }
{
    REPORT_HEADER_SIZE + board_rows_size(second, p) + OP_ROW_SIZE * n
}

// The room of the order of n operations: an operation has at most two steps.
pub fn order_room(n: usize) -> usize
    requires { n < 65536 }
    ensures { result ≡ order_room n }
{
    2 * n
}

// Rooms of the largest sizes, each filled with a byte of its own. A caller knows such a room by its length alone, so the checker
// computes no list of its size, whatever the limits are.
pub fn input() -> [u8; limits::MOST_SHEET + 1] {
    [0u8; limits::MOST_SHEET + 1]
}

pub fn inbox() -> [u8; limits::MOST_INBOX] {
    [90u8; limits::MOST_INBOX]
}

pub fn report() -> [u8; limits::MOST_REPORT] {
    [238u8; limits::MOST_REPORT]
}

// Order out is a byte longer than it has to be.
pub fn order() -> [u8; limits::MOST_ORDER + 1] {
    [221u8; limits::MOST_ORDER + 1]
}

pub fn scratch() -> [u8; limits::SCRATCH_SIZE] {
    [204u8; limits::SCRATCH_SIZE]
}

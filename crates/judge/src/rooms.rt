// The program's rooms whose size grows with the largest sheet. A caller knows such a room by its length alone, so the checker
// computes no list of its size, whatever the limits are.
use crate::MOST_INPUT;
use crate::lines::LINE_SIZE;

pub fn input() -> [u8; MOST_INPUT] {
    [0u8; MOST_INPUT]
}

pub fn line() -> [u8; LINE_SIZE] {
    [0u8; LINE_SIZE]
}

pub fn report() -> [u8; limits::MOST_REPORT] {
    [0u8; limits::MOST_REPORT]
}

pub fn order() -> [u8; limits::MOST_ORDER] {
    [0u8; limits::MOST_ORDER]
}

pub fn scratch() -> [u8; limits::SCRATCH_SIZE] {
    [0u8; limits::SCRATCH_SIZE]
}

// Standard input, read until its end or until a room is full.
ghost use Rattle.std.specs.Prelude.{IfOk, IfErr};
ghost use Rattle.judge.specs.Counts.{IsPrefixLen};

use std::io::Read;

// A read that failed, and how many bytes stand at the start of the room. An input that cannot be read is not an empty one.
#[derive(Clone, Copy)]
pub struct ReadFailed {
    pub size: usize,
}

// How many bytes stand at the start of the room.
pub fn read_input<R: Read>(input: &mut R, room: &mut [u8]) -> Result<usize, ReadFailed>
    ensures read { IfOk result (λ size. IsPrefixLen size room.new) }
    ensures failed { IfErr result (λ e. IsPrefixLen e.size room.new) }
{
    let mut at = 0;
    while at < room.len() {
        let Ok(size) = input.read(&mut room[at..]) else {
            return Err(ReadFailed { size: at });
        };
        if size == 0 {
            break;
        }
        at += size;
    }
    Ok(at)
}

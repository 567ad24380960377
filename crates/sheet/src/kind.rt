// The kinds of operations (document 01, "The sheet, byte by byte"; probes and queries: document 02, K9).
ghost use Rattle.sheet.specs.Kinds.{Names};

// What an operation is.
#[derive(Clone, Copy, PartialEq, Eq)]
pub enum Kind {
    Standard,
    Buffered,
    Synchronous,
    Ready,
    Receive,
    Wait,
    Probe,
    Query,
}

// A byte that is no kind's number.
#[derive(Clone, Copy, PartialEq, Eq)]
pub struct UnknownKind(pub u8);

impl TryFrom<u8> for Kind {
    type Error = UnknownKind;

    ghost try_from_gives = { Names };

    fn try_from(byte: u8) -> Result<Self, UnknownKind> {
        match byte {
            1 => Ok(Kind::Standard),
            2 => Ok(Kind::Buffered),
            3 => Ok(Kind::Synchronous),
            4 => Ok(Kind::Ready),
            5 => Ok(Kind::Receive),
            6 => Ok(Kind::Wait),
            7 => Ok(Kind::Probe),
            8 => Ok(Kind::Query),
            _ => Err(UnknownKind(byte)),
        }
    }
}

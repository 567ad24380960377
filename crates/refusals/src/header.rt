// The header: refusals 2 to 4 (document 01, "When the desk says no").
#![tactic(auto, unfolding(rules::specs::Refusal::sizes_good, rules::specs::Refusal::layout_good, rules::specs::Refusal::crc_good))]

ghost use Rattle.std.specs.Prelude.{◌≡◌, ◌<◌, length};
ghost use Rattle.rules.specs.Refusal.{sizes_good, layout_good, crc_good};

use sheet::header;

// Refusal 2: the sizes are in their ranges.
pub fn sizes_are_good(s: &[u8]) -> bool
    requires { 15 < length s.now }
    ensures { result ≡ sizes_good s.now }
{
    let p = header::boards(s);
    let comms = header::comms(s);
    let n = header::ops(s);
    let l = header::payload(s);
    1 <= p
        && p <= limits::MOST_BOARDS
        && 1 <= comms
        && comms <= limits::MOST_COMMS
        && n <= limits::MOST_OPS
        && l <= limits::MOST_PAYLOAD
}

// Refusal 3: the offsets and the sheet's length are those of the sizes, in the edition that the second offset tells (document
// 02, K6).
pub fn layout_is_good(s: &[u8]) -> bool
    requires { 15 < length s.now }
    ensures { result ≡ layout_good s.now }
{
    let p = header::boards(s);
    let n = header::ops(s);
    let l = header::payload(s);
    let second = header::is_second(s);
    header::boards_offset(s) == limits::HEADER_SIZE
        && header::ops_offset(s) == limits::ops_at(second, p)
        && header::payload_offset(s) == limits::payload_at(second, p, n)
        && s.len() == limits::sheet_size(second, p, n, l)
}

// Refusal 4: the CRC is the header's.
pub fn crc_is_good(s: &[u8]) -> bool
    requires { 15 < length s.now }
    ensures { result ≡ crc_good s.now }
{
    usize::from(crc::crc_of(s)) == header::crc(s)
}

// Two-byte little-endian numbers in slices of bytes, and stores: each store is one `splice` of rules, so that a contract says
// what became of every byte.
#![tactic(auto)]

ghost use Rattle.std.specs.Prelude.{◌≡◌, [], ◌∷◌, ◌++◌, ◌+◌, ◌<◌, ◌≤◌, length, get_or, take, drop, replicate};
ghost use Rattle.rules.specs.Sheet.{two};
ghost use Rattle.rules.specs.Step.{splice};
ghost use Rattle.rules.specs.Report.{low_two};
ghost use Rattle.words.specs.Read.{Word, Byte};

// The byte at a place.
pub fn byte_at(s: &[u8], at: usize) -> usize
    requires { at < length s.now }
    ensures { Byte (get_or s.now at 0) result }
{
    usize::from(s[at])
}

// The number at a place, low byte first.
pub fn two_at(s: &[u8], at: usize) -> usize
    requires { at + 1 < length s.now }
    ensures { Word (two s.now at) result }
{
    usize::from(u16::from_le_bytes([s[at], s[at + 1]]))
}

// A byte put at a place.
pub fn put_byte(s: &mut [u8], at: usize, v: u8)
    requires { at < length s.old }
    ensures { s.new ≡ splice s.old at (v ∷ []) }
{
    s[at] = v;
}

// A number put at a place, low byte first. A cast of what is below 65536: try_from would answer an error that never comes.
pub fn put_two(s: &mut [u8], at: usize, v: usize)
    requires { at + 2 ≤ length s.old }
    ensures { s.new ≡ splice s.old at (low_two v) }
{
    let bytes = ((v % 65536) as u16).to_le_bytes();
    s[at..at + 2].copy_from_slice(&bytes);
}

// Two numbers put side by side.
pub fn put_pair(s: &mut [u8], at: usize, v: usize, w: usize)
    requires { at + 4 ≤ length s.old }
    ensures { s.new ≡ splice s.old at (low_two v ++ low_two w) }
{
    put_two(s, at, v);
    put_two(s, at + 2, w);
}

// One byte put over n places.
pub fn fill(s: &mut [u8], at: usize, n: usize, v: u8)
    requires { at + n ≤ length s.old }
    ensures { s.new ≡ splice s.old at (replicate n v) }
{
    s[at..at + n].fill(v);
}

// Zeros over the whole slice.
pub fn zero(s: &mut [u8])
    ensures { s.new ≡ replicate (length s.old) 0 }
{
    s.fill(0);
}

// The n bytes of another slice from a place on, put at a place.
pub fn copy(s: &mut [u8], at: usize, src: &[u8], from: usize, n: usize)
    requires { (at + n ≤ length s.old) × (from + n ≤ length src.now) }
    ensures { s.new ≡ splice s.old at (take n (drop from src.now)) }
{
    s[at..at + n].copy_from_slice(&src[from..from + n]);
}

// The n bytes that stand `gap` behind a place, moved down to it.
pub fn move_down(s: &mut [u8], at: usize, gap: usize, n: usize)
    requires { (at + gap) + n ≤ length s.old }
    ensures { s.new ≡ splice s.old at (take n (drop (at + gap) s.old)) }
{
    let from = at + gap;
    s.copy_within(from..from + n, at);
}

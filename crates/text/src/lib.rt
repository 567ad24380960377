// Bytes and numbers as lines of text (document 01, "The desk and its three services").
#![tactic(auto)]

ghost use Rattle.std.specs.Prelude.{◌≡◌, [], ◌∷◌, ◌++◌, ◌+◌, ◌*◌, ◌<◌, ◌≤◌, length};
ghost use Rattle.rules.specs.Step.{splice};
ghost use Rattle.text.specs.Text.{digit_of, pair as pair_text, number as number_text, hex_line as hex_line_text, numbers_line as numbers_line_text};
ghost use Rattle.text.specs.Lengths.{most_places};

// The longest text of a number: 20 digits, enough for every number of 64 bits, and the character behind them.
pub const MOST_PLACES: usize = 21;

// Upper-case hex pairs with one blank between, ended by a newline, put at the start of `line`: three places a byte. There is a
// byte at least.
pub fn hex_line(bytes: &[u8], line: &mut [u8])
    requires { (0 < length bytes.now) × (3 * length bytes.now ≤ length line.old) }
    ensures { line.new ≡ splice line.old 0 (hex_line_text bytes.now) }
{
    let last = bytes.len() - 1;
    for (i, &b) in bytes[..last].iter().enumerate() {
        put_pair(line, 3 * i, b, b' ');
    }
    put_pair(line, 3 * last, bytes[last], b'\n');
}

// A byte's two digits and the character behind them, put at a place.
fn put_pair(line: &mut [u8], at: usize, b: u8, behind: u8)
    requires { at + 3 ≤ length line.old }
    ensures { line.new ≡ splice line.old at (pair_text b behind) }
{
    line[at] = digit(b / 16);
    line[at + 1] = digit(b % 16);
    line[at + 2] = behind;
}

// A hex digit in upper case, by hand: the kit's crate `hex` writes lower case alone, and `write!` to a slice answers an error and
// states no byte of what it wrote.
#[tactic(auto, unfolding(crate::specs::Text::digit_of))]
fn digit(d: u8) -> u8
    requires { d < 16 }
    ensures { result ≡ digit_of d }
{
    if d < 10 { b'0' + d } else { b'A' + (d - 10) }
}

// Numbers in decimal with one blank between, ended by a newline, put at the start of `line`; answers how many places they take.
// There is a number at least.
pub fn numbers_line(numbers: &[u64], line: &mut [u8]) -> usize
    requires { (0 < length numbers.now) × (most_places * length numbers.now ≤ length line.old) }
    ensures { (line.new ≡ splice line.old 0 (numbers_line_text numbers.now))
        × (result ≡ length (numbers_line_text numbers.now)) }
{
    let last = numbers.len() - 1;
    let mut at = 0;
    for &n in &numbers[..last] {
        at = put_number(line, at, n, b' ');
    }
    put_number(line, at, numbers[last], b'\n')
}

// A number in decimal and the character behind it, put at a place; answers the place behind them.
fn put_number(line: &mut [u8], at: usize, n: u64, behind: u8) -> usize
    requires { at + most_places ≤ length line.old }
    ensures { (line.new ≡ splice line.old at (number_text n behind))
        × (result ≡ at + length (number_text n behind)) }
{
    let mut digits = itoa::Buffer::new();
    put_digits(line, at, digits.format(n).as_bytes(), behind)
}

// Digits and the character behind them, put at a place; answers the place behind them.
fn put_digits(line: &mut [u8], at: usize, digits: &[u8], behind: u8) -> usize
    requires { at + (length digits.now + 1) ≤ length line.old }
    ensures { (line.new ≡ splice line.old at (digits.now ++ (behind ∷ [])))
        × (result ≡ at + (length digits.now + 1)) }
{
    let end = at + digits.len();
    words::copy(line, at, digits, 0, digits.len());
    words::put_byte(line, end, behind);
    end + 1
}

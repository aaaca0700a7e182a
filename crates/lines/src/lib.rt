// Lines and their fields, for the programs: fields are parted by single spaces, and lines end in a newline. Bytes stand in them as hexadecimal digits,
// two a byte, or as `-` where there are none.
#![tactic(auto)]

ghost use Rattle.std.specs.Prelude.{◌≡◌, ◌≤◌, min, length, take};
ghost use Rattle.io.specs.Counts.{IsPrefixLen};
ghost use Rattle.lines.specs.Line.{field_of, starts_with, inputs_of};
ghost use Rattle.lines.specs.Hex.{digit_of, number_from, bytes_of};

// The streams that a program of lines reads and writes.
pub const STDIN_FILENO: i32 = 0;

pub const STDOUT_FILENO: i32 = 1;

// Field k of a line, counted from 0; past the last it is empty.
pub fn field(line: &[u8], k: usize) -> &[u8]
    ensures { result.now ≡ field_of k line.now }
{
    line.split(|&x| x == b' ').nth(k).unwrap_or(b"")
}

// The bytes that field k of a line has in hexadecimal digits, as many as there is room for.
pub fn field_bytes(line: &[u8], k: usize, to: &mut [u8]) -> usize
    ensures prefix_len { IsPrefixLen result to.new }
    ensures to_after { take result to.new ≡ take (length to.old) (bytes_of (field_of k line.now)) }
{
    unhex(field(line, k), to)
}

// The number that field k of a line has in hexadecimal digits; only the first 16 count.
pub fn field_hex(line: &[u8], k: usize) -> u64
    ensures { result ≡ number_from 16 0 (take 16 (field_of k line.now)) }
{
    hex_number(field(line, k))
}

// The number that field k of a line has in decimal digits; above the most it counts as the most.
pub fn field_number(line: &[u8], k: usize, most: usize) -> usize
    requires { most ≤ 1000000000 }
    ensures { result ≡ min most (number_from 10 0 (field_of k line.now)) }
{
    decimal(field(line, k), most)
}

// The line begins with the word.
pub fn begins(line: &[u8], word: &[u8]) -> bool
    ensures { result ≡ starts_with word.now line.now }
{
    line.starts_with(word)
}

// The part of a line before its results: before the first ` = `, or all of it.
pub fn inputs(line: &[u8]) -> &[u8]
    ensures { result.now ≡ inputs_of line.now }
{
    let end = results_at(line);
    &line[..end]
}

// A number of bytes, as far as the slice has them: a `min`, which docs/PROMISES.md names.
pub fn clip(n: usize, s: &[u8]) -> usize
    ensures prefix_len { IsPrefixLen result s.now }
    ensures value { result ≡ min n (length s.now) }
{
    n.min(s.len())
}

// Prints a space and a number.
pub fn show_number(n: u64) {
    io::write_all(STDOUT_FILENO, b" ");
    io::print_decimal(STDOUT_FILENO, n);
}

// Prints a space and bytes as hexadecimal digits, or `-`.
pub fn show_bytes(bytes: &[u8]) {
    io::write_all(STDOUT_FILENO, b" ");
    if bytes.is_empty() {
        io::write_all(STDOUT_FILENO, b"-");
    }
    for x in bytes {
        io::write_all(STDOUT_FILENO, &[hex(x / 16), hex(x % 16)]);
    }
}

// The bytes of a word of hexadecimal digits, as many as there is room for.
fn unhex(word: &[u8], to: &mut [u8]) -> usize
    ensures prefix_len { IsPrefixLen result to.new }
    ensures to_after { take result to.new ≡ take (length to.old) (bytes_of word.now) }
{
    let n = to.len().min(word.len() / 2);
    for i in 0..n {
        to[i] = digit(word[2 * i]) * 16 + digit(word[2 * i + 1]);
    }
    n
}

// The number of a word of hexadecimal digits; only the first 16 count.
fn hex_number(word: &[u8]) -> u64
    ensures { result ≡ number_from 16 0 (take 16 word.now) }
{
    let mut n: u64 = 0;
    for x in &word[..word.len().min(16)] {
        n = n * 16 + u64::from(digit(*x));
    }
    n
}

// The number of a word of decimal digits; above the most it counts as the most.
fn decimal(word: &[u8], most: usize) -> usize
    requires { most ≤ 1000000000 }
    ensures { result ≡ min most (number_from 10 0 word.now) }
{
    let mut n: usize = 0;
    for x in word {
        n = (n * 10 + usize::from(digit(*x))).min(most);
    }
    n
}

// The value of a hexadecimal digit; any other byte counts as 0. No `to_digit`: that reads capital letters too.
#[tactic(auto, unfolding(crate::specs::Hex::digit_of))]
fn digit(x: u8) -> u8
    ensures value { result ≡ digit_of x }
    ensures upper_bound { result ≤ 15 }
{
    match x {
        b'0'..=b'9' => x - b'0',
        b'a'..=b'f' => x - b'a' + 10,
        _ => 0,
    }
}

// Where the first ` = ` of a line stands, or its end.
fn results_at(line: &[u8]) -> usize
    ensures prefix_len { IsPrefixLen result line.now }
    ensures value { result ≡ length (inputs_of line.now) }
{
    line.windows(3)
        .position(|w| w == b" = ".as_slice())
        .unwrap_or(line.len())
}

// The hexadecimal digit of a value below 16. No `from_digit`: that gives an `Option<char>`, to be taken apart here.
fn hex(x: u8) -> u8 {
    b"0123456789abcdef"[usize::from(x % 16)]
}

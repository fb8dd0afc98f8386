// The parts of an example's line: words with a space between each two, numbers in decimal, and bytes in hexadecimal.
ghost use Rattle.std.specs.Prelude.{◌≤◌, length, ◌≡◌, take};

// The first place of the byte between two places; the second of these where it does not stand there.
pub fn find(s: &[u8], from: usize, to: usize, b: u8) -> usize
    requires { (from ≤ to) × (to ≤ length s.now) }
    ensures { (from ≤ result) × (result ≤ to) }
{
    for at in from..to {
        if s[at] == b {
            return at;
        }
    }
    to
}

// Where the word after as many spaces begins; the end if there is none.
pub fn word(s: &[u8], spaces: usize) -> usize
    ensures { result ≤ length s.now }
{
    let mut at = 0;
    let mut left = spaces;
    while at < s.len() {
        if left == 0 {
            return at;
        }
        if s[at] == b' ' {
            left -= 1;
        }
        at += 1;
    }
    at
}

// Where the word at a place ends: at a comma, at a space, or at the end.
pub fn word_end(s: &[u8], at: usize) -> usize
    requires { at ≤ length s.now }
    ensures { (at ≤ result) × (result ≤ length s.now) }
{
    find(s, at, find(s, at, s.len(), b' '), b',')
}

// The number at a place; 0 where none stands there.
pub fn number(s: &[u8], at: usize) -> u64 {
    match token::uint(s, at) {
        Ok(number) => number.value,
        Err(_) => 0,
    }
}

// The bytes that stand from a place on, each as two digits and a space, as many as there is room for, and how many they are.
pub fn bytes(s: &[u8], from: usize, out: &mut [u8]) -> usize
    ensures { (result ≤ length out.new) × (result ≡ length (take result out.new)) }
{
    let mut n = 0;
    let mut at = from;
    while n < out.len() {
        let value = digits(s, at);
        if 255 < value {
            return n;
        }
        out[n] = (value % 256) as u8;
        n += 1;
        at = sum(at, 3);
    }
    n
}

// What the two hexadecimal digits at a place stand for; more than 255 where they do not stand there.
pub fn digits(s: &[u8], at: usize) -> u32 {
    16 * digit(byte(s, at)) + digit(byte(s, sum(at, 1)))
}

// What a hexadecimal digit in lower case stands for; 256 for anything else.
fn digit(b: u8) -> u32
    ensures { result ≤ 256 }
{
    match b {
        b'0'..=b'9' => (b - b'0') as u32,
        b'a'..=b'f' => (b - b'a' + 10) as u32,
        _ => 256,
    }
}

// The byte at a place, and 0 past the end.
pub fn byte(s: &[u8], at: usize) -> u8 {
    if at < s.len() { s[at] } else { 0 }
}

// The sum, or the largest number where it would be larger.
pub fn sum(a: usize, b: usize) -> usize {
    if b <= 18446744073709551615 - a {
        a + b
    } else {
        18446744073709551615
    }
}

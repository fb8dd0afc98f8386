// The parts of a question's line: a word, numbers in decimal, and bytes in hexadecimal, a space between each two.
ghost use Rattle.std.specs.Prelude.{◌≤◌, length, ◌≡◌, take};

// A number, and the place after it and a space.
#[derive(Clone, Copy)]
pub struct Field {
    pub value: u64,
    pub next: usize,
}

// The first place of the byte between two places; the second of these where it does not stand there.
pub fn find(s: &[u8], from: usize, to: usize, b: u8) -> usize
    requires { (from ≤ to) × (to ≤ length s.now) }
    ensures { (from ≤ result) × (result ≤ to) }
{
    for at in from..to {
        if s[at] == b {
            return at;
        }
    }
    to
}

// The place after the line's first space.
pub fn after_word(s: &[u8]) -> usize {
    sum(find(s, 0, s.len(), b' '), 1)
}

// The number at a place; 0 where none stands there.
pub fn number(s: &[u8], at: usize) -> Field {
    match token::uint(s, at) {
        Ok(number) => Field {
            value: number.value,
            next: sum(sum(at, number.used), 1),
        },
        Err(_) => Field { value: 0, next: at },
    }
}

// The numbers that stand behind a letter and a space, as many as there is room for, and how many they are: none where the line does not have the letter.
pub fn list(s: &[u8], letter: u8, out: &mut [u32]) -> usize
    ensures { (result ≤ length out.new) × (result ≡ length (take result out.new)) }
{
    let mut n = 0;
    let mut at = sum(find(s, 0, s.len(), letter), 2);
    while n < out.len() {
        let field = number(s, at);
        if field.next == at {
            return n;
        }
        out[n] = (field.value % 4294967296) as u32;
        n += 1;
        at = field.next;
    }
    n
}

// The bytes whose hexadecimal digits stand from a place on, as many as there is room for, and how many they are.
pub fn bytes(s: &[u8], from: usize, out: &mut [u8]) -> usize
    ensures { (result ≤ length out.new) × (result ≡ length (take result out.new)) }
{
    let mut n = 0;
    let mut at = from;
    while n < out.len() {
        let value = digits(s, at);
        if 255 < value {
            return n;
        }
        out[n] = (value % 256) as u8;
        n += 1;
        at = sum(at, 2);
    }
    n
}

// What the two hexadecimal digits at a place stand for; more than 255 where they do not stand there.
fn digits(s: &[u8], at: usize) -> u32 {
    16 * digit(byte(s, at)) + digit(byte(s, sum(at, 1)))
}

// What a hexadecimal digit in lower case stands for; 256 for anything else.
fn digit(b: u8) -> u32
    ensures { result ≤ 256 }
{
    match b {
        b'0'..=b'9' => (b - b'0') as u32,
        b'a'..=b'f' => (b - b'a' + 10) as u32,
        _ => 256,
    }
}

// The byte at a place, and 0 past the end.
pub fn byte(s: &[u8], at: usize) -> u8 {
    if at < s.len() { s[at] } else { 0 }
}

// The sum, or the largest number where it would be larger.
fn sum(a: usize, b: usize) -> usize {
    if b <= 18446744073709551615 - a {
        a + b
    } else {
        18446744073709551615
    }
}

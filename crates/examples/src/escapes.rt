// Bytes as a text in quotes: `\n` and `\r` for the ends of lines, `\x` and two hexadecimal digits for any byte, and each other letter for itself.
ghost use Rattle.std.specs.Prelude.{◌≤◌, length, ◌≡◌, take};

use crate::say::Output;
use crate::{fields, say};

// The bytes of the text that begins at a place, up to its quote, as many as there is room for, and how many they are.
pub fn bytes(s: &[u8], from: usize, out: &mut [u8]) -> usize
    ensures { (result ≤ length out.new) × (result ≡ length (take result out.new)) }
{
    let mut n = 0;
    let mut at = from;
    while n < out.len() {
        if ends(fields::byte(s, at)) {
            return n;
        }
        out[n] = meant(s, at);
        n += 1;
        at = fields::sum(at, width(s, at));
    }
    n
}

// A quote ends the text, and so does the line's end.
fn ends(b: u8) -> bool {
    match b {
        0 | b'"' => true,
        _ => false,
    }
}

// The letter that follows a backslash at a place; 0 where none stands there.
fn escape(s: &[u8], at: usize) -> u8 {
    match fields::byte(s, at) {
        b'\\' => fields::byte(s, fields::sum(at, 1)),
        _ => 0,
    }
}

// The byte that what stands at a place is for.
fn meant(s: &[u8], at: usize) -> u8 {
    match escape(s, at) {
        b'n' => b'\n',
        b'r' => b'\r',
        b'x' => (fields::digits(s, fields::sum(at, 2)) % 256) as u8,
        _ => fields::byte(s, at),
    }
}

// How many letters of the line that is.
fn width(s: &[u8], at: usize) -> usize {
    match escape(s, at) {
        b'n' | b'r' => 2,
        b'x' => 4,
        _ => 1,
    }
}

// Prints the bytes as such a text: a letter, a digit, a mark or a space for itself, but for a quote and a backslash.
pub fn show(to: &mut Output, s: &[u8]) {
    for b in s {
        shown(to, *b);
    }
}

fn shown(to: &mut Output, b: u8) {
    match b {
        b'\n' => say::text(to, b"\\n"),
        b' '..=b'!' | b'#'..=b'[' | b']'..=b'~' => say::byte(to, b),
        _ => {
            say::text(to, b"\\x");
            say::digits(to, b);
        }
    }
}

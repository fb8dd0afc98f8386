// The lists of a circuit's line. A capital letter names a list, and a semicolon ends it: of `V=3; Inputs 4, 2; Gate 6(2,4); Root 6` the gates are
// the numbers 6, 2 and 4. A list that the line does not name is empty.
ghost use Rattle.std.specs.Prelude.{◌≤◌, length, ◌≡◌, take};

use crate::fields::find;

// Whether the line has the letter.
pub fn named(s: &[u8], letter: u8) -> bool {
    find(s, 0, s.len(), letter) < s.len()
}

// Puts the numbers of the letter's list into the words, as many as there is room for, and answers how many they are.
pub fn list(s: &[u8], letter: u8, words: &mut [u32]) -> usize
    ensures { (result ≤ length words.new) × (result ≡ length (take result words.new)) }
{
    let mut at = find(s, 0, s.len(), letter);
    let mut last = letter;
    let mut n = 0;
    while at < s.len() {
        let b = s[at];
        if b == b';' {
            return n;
        }
        n = number(s, at, last, words, n);
        last = b;
        at += 1;
    }
    n
}

// The same where the line has the letter; else the words as they are, as many as asked for.
pub fn list_or(s: &[u8], letter: u8, words: &mut [u32], others: usize) -> usize
    ensures { (result ≤ length words.new) × (result ≡ length (take result words.new)) }
{
    if named(s, letter) {
        return list(s, letter, words);
    }
    if others < words.len() {
        others
    } else {
        words.len()
    }
}

// The first number of the letter's list; 0 where it has none.
pub fn one(s: &[u8], letter: u8) -> u32 {
    let mut first = [0u32; 1];
    list(s, letter, &mut first);
    first[0]
}

// Puts the number that begins at a place, after the last byte, into the word n, and answers the next word: n, where none begins or no word is left.
fn number(s: &[u8], at: usize, last: u8, words: &mut [u32], n: usize) -> usize
    requires { n ≤ length words.old }
    ensures { result ≤ length words.new }
{
    if words.len() <= n {
        return n;
    }
    if digit(last) {
        return n;
    }
    let Ok(number) = token::uint(s, at) else {
        return n;
    };
    words[n] = (number.value % 4294967296) as u32;
    n + 1
}

fn digit(b: u8) -> bool {
    match b {
        b'0'..=b'9' => true,
        _ => false,
    }
}

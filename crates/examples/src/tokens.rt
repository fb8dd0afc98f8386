// Tokens: prints an example's line and what the token that it names answers.
ghost use Rattle.std.specs.Prelude.{◌<◌, ◌≤◌};

use crate::fields::find;
use crate::say::Output;
use crate::{fields, say, show};

pub fn answer(to: &mut Output, line: &[u8]) {
    let fifth = fields::byte(line, 4);
    question(to, line, fifth);
    named(to, line, fields::byte(line, 0), fifth);
}

// The line; of a gate of the half adder only the gate.
fn question(to: &mut Output, line: &[u8], fifth: u8) {
    if fifth == b'h' {
        say::text(to, &line[0..find(line, 0, line.len(), b':')]);
        return;
    }
    say::text(to, line);
}

// The first letter tells the tokens apart; the fifth tells `the half adder's gate` from `the paper's`, and `lit assigning` from `lit`.
fn named(to: &mut Output, line: &[u8], first: u8, fifth: u8) {
    match first {
        b't' => paper(to, line, fifth),
        b'l' => lit(to, line, fifth),
        b'd' | b'p' => on_bytes(to, line, first, 3),
        _ => on_text(to, line, first, 1),
    }
}

fn paper(to: &mut Output, line: &[u8], fifth: u8) {
    if fifth == b'h' {
        on_bytes(to, line, b'p', 5);
        return;
    }
    on_bytes(to, line, b't', 2);
}

fn lit(to: &mut Output, line: &[u8], fifth: u8) {
    if fifth == b'a' {
        on_text(to, line, b'a', 2);
        return;
    }
    on_text(to, line, b'l', 1);
}

// Bytes from a word on, a number before them and a place after them, as in `pair for 6: ff 02 05 at 1`. A place that the line does not name is 0.
fn on_bytes(to: &mut Output, line: &[u8], kind: u8, word: usize)
    requires { (0 < word) × (word ≤ 5) }
{
    let mut room = [0u8; 8];
    let n = fields::bytes(line, fields::word(line, word), &mut room);
    let number = fields::number(line, fields::word(line, word - 1));
    let place = fields::number(line, fields::word(line, word + n + 1));
    of_bytes(to, kind, &room[..n], place as usize, number);
}

fn of_bytes(to: &mut Output, kind: u8, s: &[u8], at: usize, number: u64) {
    match kind {
        b'd' => show::token(to, token::delta_code(s, at, number)),
        b't' => show::token(to, token::binary_uint(s, at)),
        _ => show::pair(to, token::pair(s, at, number)),
    }
}

// A text, which is a word, and a number two words on, as in `uint x12 at 1` and `lit assigning 7, limit 6`.
fn on_text(to: &mut Output, line: &[u8], kind: u8, word: usize)
    requires { word ≤ 2 }
{
    let from = fields::word(line, word);
    let number = fields::number(line, fields::word(line, word + 2));
    of_text(to, kind, &line[from..fields::word_end(line, from)], number);
}

fn of_text(to: &mut Output, kind: u8, s: &[u8], number: u64) {
    match kind {
        b'u' => show::token(to, token::uint(s, number as usize)),
        b'h' => show::token(to, token::header_field(s, 0, number)),
        b's' => show::token(to, token::symbol_index(s, 0, number)),
        b'l' => show::token(to, token::lit(s, 0, number, false)),
        _ => show::token(to, token::lit(s, 0, number, true)),
    }
}

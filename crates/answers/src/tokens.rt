// Questions about number tokens: the token's name, the place, what else it is given, and the bytes.
use crate::say::Output;
use crate::{fields, say};

// The first letter tells the tokens apart.
pub fn answer(to: &mut Output, line: &[u8]) {
    let kind = fields::byte(line, 0);
    let place = fields::number(line, fields::after_word(line));
    if kind == b'u' {
        with_bytes(to, line, place.next, kind, place.value, 0, false);
        return;
    }
    if kind == b'b' {
        with_bytes(to, line, place.next, kind, place.value, 0, false);
        return;
    }
    let given = fields::number(line, place.next);
    if kind == b'l' {
        let assigning = fields::number(line, given.next);
        with_bytes(
            to,
            line,
            assigning.next,
            kind,
            place.value,
            given.value,
            assigning.value == 1,
        );
        return;
    }
    with_bytes(to, line, given.next, kind, place.value, given.value, false);
}

// The token of the bytes whose digits stand from a place of the line on.
fn with_bytes(
    to: &mut Output,
    line: &[u8],
    from: usize,
    kind: u8,
    at: u64,
    given: u64,
    assigning: bool,
) {
    let mut room = [0u8; 64];
    let n = fields::bytes(line, from, &mut room);
    token(to, kind, &room[..n], at as usize, given, assigning);
}

fn token(to: &mut Output, kind: u8, s: &[u8], at: usize, given: u64, assigning: bool) {
    match kind {
        b'u' => say::token(to, token::uint(s, at)),
        b'b' => say::token(to, token::binary_uint(s, at)),
        b'l' => say::token(to, token::lit(s, at, given, assigning)),
        b'h' => say::token(to, token::header_field(s, at, given)),
        b's' => say::token(to, token::symbol_index(s, at, given)),
        b'd' => say::token(to, token::delta_code(s, at, given)),
        b'p' => say::pair(to, token::pair(s, at, given)),
        _ => {}
    }
}

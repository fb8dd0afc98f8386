// The token reader: tokens read one after the other, where each is past the ones before it. A refusal leaves the reader where it stood.
use crate::say::Output;
use crate::{say, show};
use plain::reading;
use token::{Inputs, Number, Refused};

pub fn run(to: &mut Output) {
    decimals(to, b"71 8 7 0");
    limited(to, b"8 7 0");
    odd(to, b"7 0");
    groups(to, b"\x82\x02\x02\x02\x02\x02\x07\x80");
    zero(to, b"\x02\x02\x80\x00\x02");
}

// An answer that took as many bytes.
fn took(bytes: usize) -> Result<Number, Refused> {
    Ok(Number {
        value: 0,
        used: bytes,
    })
}

fn decimals(to: &mut Output, s: &[u8]) {
    let field = reading::header_field(s, took(0), took(0), 71);
    token(to, b"header_field, limit 71", field);
    let refused = reading::uint(s, took(0), field);
    token(to, b"uint after it", refused);
    token(
        to,
        b"uint after the refusal",
        reading::uint(s, field, refused),
    );
}

fn limited(to: &mut Output, s: &[u8]) {
    let index = reading::symbol_index(s, took(0), took(0), 7);
    token(to, b"symbol_index, limit 7", index);
    let code = reading::lit(s, took(0), index, 8, true);
    token(to, b"lit assigning, limit 8", code);
}

fn odd(to: &mut Output, s: &[u8]) {
    let code = reading::lit(s, took(0), took(0), 8, true);
    token(to, b"lit assigning, limit 8", code);
    token(
        to,
        b"lit, limit 8",
        reading::lit(s, took(0), code, 8, false),
    );
}

// Groups of seven bits in a row: a number, a delta, a pair, then a pair whose second delta is over its reference, and where it began a delta that is.
fn groups(to: &mut Output, s: &[u8]) {
    let number = reading::binary_uint(s, took(0), took(0));
    token(to, b"binary_uint", number);
    let code = reading::delta_code(s, took(0), number, 6);
    token(to, b"delta_code from 6", code);
    let inputs = reading::pair(s, number, code, 6);
    pair(to, b"pair for 6", inputs);
    after(to, s, inputs);
}

fn after(to: &mut Output, s: &[u8], inputs: Result<Inputs, Refused>) {
    let over = reading::pair_after(s, took(3), inputs, 6);
    pair(to, b"pair for 6", over);
    let code = reading::delta_after(s, took(5), over, 1);
    token(to, b"delta_code from 1, where the pair began", code);
    token(
        to,
        b"delta_code from 6, there",
        reading::delta_code(s, took(5), code, 6),
    );
}

// Two pairs, the second of which has a first delta of zero, and where it began that delta alone.
fn zero(to: &mut Output, s: &[u8]) {
    let inputs = reading::pair(s, took(0), took(0), 6);
    let refused = reading::pair_after(s, took(0), inputs, 6);
    pair(to, b"pair for 6, its first delta zero", refused);
    let code = reading::delta_after(s, took(2), refused, 6);
    token(to, b"delta_code from 6, where the pair began", code);
}

fn token(to: &mut Output, name: &[u8], t: Result<Number, Refused>) {
    say::text(to, name);
    show::token(to, t);
}

fn pair(to: &mut Output, name: &[u8], t: Result<Inputs, Refused>) {
    say::text(to, name);
    show::pair(to, t);
}

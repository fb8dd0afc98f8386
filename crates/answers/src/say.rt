// Answers on standard output: `V value used`, `P first second used`, `R number place`, `F number words` and `T number words`, with a file's lists,
// `W number words bytes`; and any text.
use std::io;
use std::io::Stdout;
use token::{Inputs, Number, Refused};

// Standard output, and what writing came to so far: after a write that failed nothing more is written.
#[derive(Drop)]
pub struct Output {
    stdout: Stdout,
    written: io::Result<()>,
}

impl Output {
    pub fn new(stdout: Stdout) -> Output {
        Output {
            stdout,
            written: Ok(()),
        }
    }

    // Whether all was written.
    pub fn end(self) -> io::Result<()> {
        self.written
    }
}

pub fn token(to: &mut Output, t: Result<Number, Refused>) {
    match t {
        Ok(read) => {
            text(to, b"V ");
            number(to, read.value);
            last(to, read.used as u64);
        }
        Err(why) => refused(to, why),
    }
}

pub fn pair(to: &mut Output, t: Result<Inputs, Refused>) {
    match t {
        Ok(inputs) => {
            text(to, b"P ");
            number(to, inputs.first);
            text(to, b" ");
            number(to, inputs.second);
            last(to, inputs.used as u64);
        }
        Err(why) => refused(to, why),
    }
}

fn refused(to: &mut Output, refused: Refused) {
    refusal(to, u32::from(refused.why) as u64, refused.place as u64);
}

pub fn refusal(to: &mut Output, n: u64, place: u64) {
    text(to, b"R ");
    number(to, n);
    last(to, place);
}

// The number and the words of what is written.
pub fn written(to: &mut Output, n: u32, words: [u64; 2]) {
    text(to, b"W");
    after(to, n as u64);
    after(to, words[0]);
    after(to, words[1]);
}

// A space and two hexadecimal digits for each byte; `-` where there is none.
pub fn hex(to: &mut Output, s: &[u8]) {
    text(to, b" ");
    if s.len() == 0 {
        text(to, b"-");
    }
    for b in s {
        digits(to, *b);
    }
}

fn digits(to: &mut Output, b: u8) {
    if to.written.is_ok() {
        to.written = print!(to.stdout; "{b:02x}");
    }
}

// A letter and a space, and a file's number and words.
pub fn file(to: &mut Output, letter: &[u8], n: u32, words: &[u64]) {
    text(to, letter);
    number(to, n as u64);
    for w in words {
        after(to, *w);
    }
}

// A list's words up to the first that is no literal.
pub fn front(to: &mut Output, list: &[u32]) {
    for w in list {
        if *w == 4294967295 {
            return;
        }
        word(to, *w);
    }
}

fn word(to: &mut Output, w: u32) {
    after(to, w as u64);
}

fn last(to: &mut Output, n: u64) {
    after(to, n);
    text(to, b"\n");
}

// A space and a number.
fn after(to: &mut Output, n: u64) {
    text(to, b" ");
    number(to, n);
}

fn number(to: &mut Output, n: u64) {
    if to.written.is_ok() {
        to.written = to.stdout.print(n);
    }
}

pub fn text(to: &mut Output, s: &[u8]) {
    if to.written.is_ok() {
        to.written = to.stdout.write_all(s);
    }
}

// Text and numbers on standard output.
use std::io;
use std::io::Stdout;

// Standard output, and what writing came to so far: after a write that failed nothing more is written.
#[derive(Drop)]
pub struct Output {
    stdout: Stdout,
    written: io::Result<()>,
}

impl Output {
    pub fn new(stdout: Stdout) -> Output {
        Output {
            stdout,
            written: Ok(()),
        }
    }

    // Whether all was written.
    pub fn end(self) -> io::Result<()> {
        self.written
    }
}

pub fn text(to: &mut Output, s: &[u8]) {
    if to.written.is_ok() {
        to.written = to.stdout.write_all(s);
    }
}

pub fn byte(to: &mut Output, b: u8) {
    let one: [u8; 1] = [b];
    text(to, &one);
}

// A byte's two hexadecimal digits.
pub fn digits(to: &mut Output, b: u8) {
    if to.written.is_ok() {
        to.written = print!(to.stdout; "{b:02x}");
    }
}

pub fn number(to: &mut Output, n: u64) {
    if to.written.is_ok() {
        to.written = to.stdout.print(n);
    }
}

// A text and a number after it.
pub fn counted(to: &mut Output, s: &[u8], n: u64) {
    text(to, s);
    number(to, n);
}

pub fn line_end(to: &mut Output) {
    text(to, b"\n");
}

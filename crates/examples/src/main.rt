// Runs the documents' examples and prints a line for each. The literals' stand in `lits.rt`; those of tokens, circuits, files, texts and writing in the file `stdin`
// beside `src`, a line each; the token reader's and the gate records' in `readings.rt` and `records.rt`. What is printed is held to the file `stdout`,
// which was written from the documents and not by this program.
#![tactic(auto)]

mod circuits;
mod escapes;
mod fields;
mod files;
mod lists;
mod lits;
mod readings;
mod records;
mod say;
mod show;
mod texts;
mod tokens;
mod writings;

ghost use Rattle.std.specs.Prelude.{◌≡◌, length};
ghost use Rattle.std.specs.Io.{ReadsAtMost};

use fields::find;
use say::Output;
use std::io;
use std::io::{Read, Stdin};

// Room for the examples.
fn examples_room() -> [u8; 65536]
    ensures { 65536 ≡ length result }
{
    [0; 65536]
}

fn main(rt: HostRuntime) -> io::Result<()> {
    let mut to = Output::new(rt.stdout());
    lits::run(&mut to);
    let mut examples = examples_room();
    let n = read(rt.stdin(), &mut examples)?;
    lines(&mut to, &examples[..n]);
    readings::run(&mut to);
    records::run(&mut to);
    to.end()
}

// Reads until the room is full or the input ends, and answers how many bytes stand at the front of the room.
fn read(mut from: Stdin, room: &mut [u8]) -> io::Result<usize>
    ensures { ReadsAtMost result room.new }
{
    let mut done: usize = 0;
    while done < room.len() {
        let more = from.read(&mut room[done..])?;
        if more == 0 {
            return Ok(done);
        }
        done += more;
    }
    Ok(done)
}

// Each line but its newline, in turn.
fn lines(to: &mut Output, s: &[u8]) {
    let mut at = 0;
    while at < s.len() {
        let end = find(s, at, s.len(), b'\n');
        line(to, &s[at..end]);
        at = end + 1;
    }
}

// The first letter tells a circuit, a map, a file, a text, what is written and what is written again, and a token apart: a capital W or A writes a text. A line
// that is empty or begins with `#` is for the reader.
fn line(to: &mut Output, s: &[u8]) {
    match fields::byte(s, 0) {
        0 | b'#' => {}
        b'V' => circuits::answer(to, s),
        b'M' => circuits::in_map(to, s),
        b'f' => files::answer(to, s),
        b'T' => texts::answer(to, s),
        b'w' | b'W' => writings::answer(to, s),
        b'a' | b'A' => writings::again(to, s),
        _ => tokens::answer(to, s),
    }
}

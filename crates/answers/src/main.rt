// Replays questions whose answers the original gave: reads them from standard input, a line each, and answers each in the same words. The
// files `stdin` and `stdout` beside `src` are the questions and the original's answers; docs/RECORDED.md says how they were made.
#![tactic(auto)]

mod fields;
mod files;
mod say;
mod sheets;
mod tokens;
mod writings;

ghost use Rattle.std.specs.Prelude.{◌≡◌, length};
ghost use Rattle.std.specs.Io.{ReadsAtMost};

use fields::find;
use say::Output;
use std::io;
use std::io::{Read, Stdin};

// Room for the questions.
fn questions_room() -> [u8; 1048576]
    ensures { 1048576 ≡ length result }
{
    [0; 1048576]
}

fn main(rt: HostRuntime) -> io::Result<()> {
    let mut questions = questions_room();
    let n = read(rt.stdin(), &mut questions)?;
    let mut to = Output::new(rt.stdout());
    lines(&mut to, &questions[..n]);
    to.end()
}

// Reads until the room is full or the input ends, and answers how many bytes stand at the front of the room.
fn read(mut from: Stdin, room: &mut [u8]) -> io::Result<usize>
    ensures { ReadsAtMost result room.new }
{
    let mut done: usize = 0;
    while done < room.len() {
        let more = from.read(&mut room[done..])?;
        if more == 0 {
            return Ok(done);
        }
        done += more;
    }
    Ok(done)
}

// Each line but its newline, in turn.
fn lines(to: &mut Output, s: &[u8]) {
    let mut at = 0;
    while at < s.len() {
        let end = find(s, at, s.len(), b'\n');
        answer(to, &s[at..end]);
        at = end + 1;
    }
}

// The first letter tells a file, a text, a circuit that is written and a file that is written again, and the second a sheet, from the tokens.
fn answer(to: &mut Output, line: &[u8]) {
    match fields::byte(line, 0) {
        b'f' => files::answer(to, line),
        b't' => of_text(to, line),
        b'w' => writings::answer(to, line, false),
        b'a' => writings::again(to, line),
        _ => other(to, line),
    }
}

// `textwrite` has a letter where `text` ends.
fn of_text(to: &mut Output, line: &[u8]) {
    if fields::byte(line, 4) == b'w' {
        writings::answer(to, line, true);
    } else {
        files::text(to, line);
    }
}

fn other(to: &mut Output, line: &[u8]) {
    if fields::byte(line, 1) == b'h' {
        sheets::answer(to, line);
    } else {
        tokens::answer(to, line);
    }
}

// Literals: document 01's index 3 and code 6, the constant's codes, the largest index whose code fits, and flips by either sign.
use crate::say;
use crate::say::Output;
use lit::{Lit, Var};

pub fn run(to: &mut Output) {
    doubled(to, 3);
    doubled(to, 0);
    doubled(to, 2147483647);
    doubled(to, 2147483648);
    halved(to, 6);
    halved(to, 7);
    halved(to, 0);
    halved(to, 1);
    halved(to, 4294967295);
    flipped(to, 6, 2);
    flipped(to, 6, 3);
    flipped(to, 7, 2);
    flipped(to, 7, 3);
    flipped(to, 4294967294, 1);
}

// The code of a variable.
fn doubled(to: &mut Output, index: u32) {
    say::counted(to, b"index ", index as u64);
    match Var::from_index(index).lit() {
        Some(l) => {
            say::counted(to, b" has the code ", l.code() as u64);
        }
        None => say::text(to, b" is too big for a code"),
    }
    say::line_end(to);
}

// The variable of a literal, whichever its sign.
fn halved(to: &mut Output, code: u32) {
    let variable = Lit::from_code(code).var();
    say::counted(to, b"code ", code as u64);
    say::counted(to, b" names the index ", variable.index() as u64);
    say::line_end(to);
}

// A literal flipped by the sign of another: by an even code it stays,
// and by an odd code its low bit changes.
fn flipped(to: &mut Output, code: u32, by: u32) {
    let answer = Lit::from_code(code).flipped(Lit::from_code(by));
    say::counted(to, b"code ", code as u64);
    say::counted(to, b" flipped by ", by as u64);
    say::counted(to, b" is ", answer.code() as u64);
    say::line_end(to);
}

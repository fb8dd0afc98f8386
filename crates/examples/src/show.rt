// Tokens' answers on standard output.
use crate::say;
use crate::say::Output;
use token::{Inputs, Number, Refused};

// `: VALUE in USED`, or what refused it, and the line's end.
pub fn token(to: &mut Output, t: Result<Number, Refused>) {
    match t {
        Ok(number) => {
            say::counted(to, b": ", number.value);
            ends_in(to, number.used);
        }
        Err(why) => refused(to, why),
    }
}

// `: (FIRST, SECOND) in USED`, or what refused it, and the line's end.
pub fn pair(to: &mut Output, t: Result<Inputs, Refused>) {
    match t {
        Ok(inputs) => {
            say::counted(to, b": (", inputs.first);
            say::counted(to, b", ", inputs.second);
            say::text(to, b")");
            ends_in(to, inputs.used);
        }
        Err(why) => refused(to, why),
    }
}

fn ends_in(to: &mut Output, used: usize) {
    say::counted(to, b" in ", used as u64);
    say::line_end(to);
}

fn refused(to: &mut Output, refused: Refused) {
    say::counted(to, b": refused ", u32::from(refused.why) as u64);
    say::counted(to, b" at ", refused.place as u64);
    say::line_end(to);
}

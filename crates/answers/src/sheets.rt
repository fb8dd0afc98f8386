// Questions about sheets: the word `sheet` and the sheet's bytes. The answer is the report on them, and a line `--`.
ghost use Rattle.std.specs.Prelude.{◌≡◌, length};

use crate::say::Output;
use crate::{fields, say};

// Room for the longest sheet and a byte.
fn sheet_room() -> [u8; 60001]
    ensures { 60001 ≡ length result }
{
    [0; 60001]
}

// Room for every report.
fn report_room() -> [u8; 131072]
    ensures { 131072 ≡ length result }
{
    [0; 131072]
}

pub fn answer(to: &mut Output, line: &[u8]) {
    let mut sheet = sheet_room();
    let n = fields::bytes(line, fields::after_word(line), &mut sheet);
    let mut out = report_room();
    let length = sheet::report(&sheet[..n], &mut out);
    say::text(to, &out[..length]);
    say::text(to, b"--\n");
}

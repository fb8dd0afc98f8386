// Reads a sheet from standard input and writes the report on it to standard output. Of a sheet that is too long one byte more than the longest is
// read, which is enough to know. Where a read fails nothing is written: a report is never empty, so that whoever runs the program sees that there
// is none. Where a write fails the report stops there, and the program ends with the error; the first line says how many lines were to come.
#![tactic(auto)]

ghost use Rattle.std.specs.Prelude.{◌≡◌, ◌≤◌, length, take};
ghost use Rattle.std.specs.Io.{ReadsAtMost};
ghost use Rattle.sheet.specs.Report.{report_of};

use std::io;
use std::io::{Read, Stdin};

// Room for so many bytes.
fn room<const N: usize>() -> [u8; N]
    ensures { length result ≡ N }
{
    [0; N]
}

// Reads until the room is full or the input ends, and answers how many bytes stand at the front of the room. A `while`, since a read may give any
// number of bytes: std's own loop over reads, `read_exact`, refuses an input that ends before the room is full.
fn read(mut from: Stdin, room: &mut [u8]) -> io::Result<usize>
    ensures { ReadsAtMost result room.new }
{
    let mut done: usize = 0;
    while done < room.len() {
        let more = from.read(&mut room[done..])?;
        if more == 0 {
            return Ok(done);
        }
        done += more;
    }
    Ok(done)
}

// The report on the first n bytes of the room, whole, at the front of the lent bytes; its length.
fn answer(sheet: &[u8], n: usize, out: &mut [u8]) -> usize
    requires { (n ≤ length sheet.now) × (131072 ≤ length out.old) }
    ensures out_after { take result out.new ≡ report_of (take n sheet.now) }
    ensures prefix_len { (result ≤ length out.new) × (result ≡ length (take result out.new)) }
{
    sheet::report(&sheet[..n], out)
}

fn main(rt: HostRuntime) -> io::Result<()> {
    // room for the longest sheet and a byte
    let mut sheet: [u8; 60001] = room();
    let Ok(n) = read(rt.stdin(), &mut sheet) else {
        return Ok(());
    };
    // room for every report
    let mut out: [u8; 131072] = room();
    let length = answer(&sheet, n, &mut out);
    rt.write_all(&out[..length])
}

// Document 01's report on slices: what renumbering answers to the circuit on a sheet, as text.
#![tactic(auto)]

mod header;
mod lists;

ghost use Rattle.std.specs.Prelude.{◌≡◌, length, replicate};
ghost use Rattle.text.specs.Put.{put_all};
ghost use Rattle.sheet.specs.Report.{report_of};

use sheet_read::Faulty;

// Room of any length, each cell of it x: the lists of the largest circuit on a sheet, and its codes.
fn filled<T: Copy, const N: usize>(x: T) -> [T; N]
    ensures all { result ≡ replicate N x }
    ensures long { length result ≡ N }
{
    [x; N]
}

// The report on a sheet: puts its text into the lent bytes, as far as it fits, and answers the text's length.
pub fn report(sheet: &[u8], out: &mut [u8]) -> usize
    ensures { (out.new ≡ put_all out.old 0 (report_of sheet.now)) × (result ≡ length (report_of sheet.now)) }
{
    let mut header = [0u64; 10];
    let mut codes: [u64; 7161] = filled(0);
    match sheet_read::read(sheet, &mut header, &mut codes) {
        Ok(()) => lists::report_codes(&header, &codes, out),
        Err(Faulty { number, beside }) => sheet_lines::put_refused(out, number as u64, beside),
    }
}

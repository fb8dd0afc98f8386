// The ten numbers at the front of a sheet that is taken: the circuit but for its lists, and how many codes the lists have.
ghost use Rattle.std.specs.Prelude.{◌≡◌, ◌^◌, ◌<◌};
ghost use Rattle.sheet_read.specs.Sheet.{code_count};
ghost use Rattle.sheet.specs.Circuit.{record_on};
ghost use Rattle.sheet_read.specs.Promise.{Taken};

use circuit::CircuitRecord;
use lit::Var;

// How many codes there are.
pub fn code_count(header: &[u64]) -> usize
    requires { Taken header.now }
    ensures { result ≡ code_count header.now }
{
    sheet_read::announced(header)
}

fn word(n: u64) -> u32
    requires { n < 2 ^ 32 }
    ensures { result ≡ n }
{
    n as u32
}

// The circuit but for its lists.
pub fn circuit_on(header: &[u64]) -> CircuitRecord
    requires { Taken header.now }
    ensures { result ≡ record_on header.now }
{
    let flags = header[9];
    CircuitRecord {
        top: Var::from_index(word(header[0])),
        counts: [
            word(header[4]),
            word(header[5]),
            word(header[6]),
            word(header[7]),
            word(header[8]),
        ],
        trim: flags % 2 == 1,
        hash: flags / 2 % 2 == 1,
        fold: flags / 4 % 2 == 1,
    }
}

// A lent slice of gate records: the first code over a bound, and the codes laid flat in lent words.
ghost use Rattle.std.specs.Prelude.{◌≡◌, ◌*◌, ◌≤◌, length};
ghost use Rattle.circuit.specs.Circuit.{first_over};
ghost use Rattle.checks.specs.Checks.{found};
ghost use Rattle.aig_records.specs.Records.{record_words, flat_of, laid_onto};

use crate::GateRecord;
use lit::Lit;

// A gate's three codes: its output, its first input, its second.
fn codes(gate: GateRecord) -> [u32; 3]
    ensures { result ≡ record_words gate }
{
    [gate.output.code(), gate.first.code(), gate.second.code()]
}

// The first code over the bound, a gate's output before its inputs.
pub fn first_over(gates: &[GateRecord], bound: usize) -> Option<Lit>
    ensures { result ≡ found (first_over bound (flat_of gates.now)) }
{
    for &gate in gates {
        if let Some(lit) = checks::over_in(&codes(gate), bound) {
            return Some(lit);
        }
    }
    None
}

// The codes of all records, one record after the other, in lent words.
pub fn flatten(gates: &[GateRecord], flat: &mut [u32])
    requires { length gates.now * 3 ≤ length flat.old }
    ensures { flat.new ≡ laid_onto (length gates.now) gates.now flat.old }
{
    for (i, &gate) in gates.iter().enumerate() {
        flat[i * 3..i * 3 + 3].copy_from_slice(&codes(gate));
    }
}

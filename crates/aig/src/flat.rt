// The given gates, flat: three words a gate, its output, its first input and its second.
ghost use Rattle.std.specs.Prelude.{◌≡◌, ◌+◌, ◌*◌, ◌<◌, length};
ghost use Rattle.lit.specs.Code.{literal};
ghost use Rattle.circuit.specs.Claims.{gate_at};

use lit::Lit;

// The words of a gate; its output is the first.
pub const WORDS: usize = 3;

// The output of gate k.
pub fn output_of(gates: &[u32], k: usize) -> Lit
    requires { 3 * k + 2 < length gates.now }
    ensures { result ≡ literal (gate_at gates.now k).output }
{
    Lit::from_code(gates[3 * k])
}

// Its first input.
pub fn first_of(gates: &[u32], k: usize) -> Lit
    requires { 3 * k + 2 < length gates.now }
    ensures { result ≡ literal (gate_at gates.now k).first }
{
    Lit::from_code(gates[3 * k + 1])
}

// Its second input.
pub fn second_of(gates: &[u32], k: usize) -> Lit
    requires { 3 * k + 2 < length gates.now }
    ensures { result ≡ literal (gate_at gates.now k).second }
{
    Lit::from_code(gates[3 * k + 2])
}

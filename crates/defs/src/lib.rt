// Checks 5 and 6 of document 01: what defines each variable. They fill a table of words in lent scratch, 0 for nothing, 1 for the constant, an input
// or a latch, k + 2 for gate k; a variable past the table is passed over.
#![tactic(auto)]

ghost use Rattle.std.specs.Prelude.{◌≡◌, ◌^◌, ◌<◌};
ghost use Rattle.circuit.specs.Outcome.{gates_of};
ghost use Rattle.defs.specs.Define.{tabled, mark_of, define_at, define_sources, define_gates, judged, define_all};

use circuit::{CircuitLists, Refusal};
use lent::words::{place_of, store};
use lit::Lit;

// Marks a literal's variable as defined; one that is marked already is given back.
#[tactic(auto, unfolding(crate::specs::Define::define_at))]
fn define(table: &mut [u32], lit: Lit, mark: u32) -> Option<Lit>
    ensures { tabled table.new result ≡ define_at table.old lit.0 mark }
{
    let i = place_of(lit);
    if i < table.len() {
        if table[i] != 0 {
            return Some(lit);
        }
        table[i] = mark;
    }
    None
}

// Inputs, or latch states.
#[tactic(auto, unfolding(crate::specs::Define::define_sources))]
fn define_sources(table: &mut [u32], literals: &[u32]) -> Option<Lit>
    ensures { tabled table.new result ≡ define_sources table.old literals.now }
{
    for &code in literals {
        if let Some(lit) = define(table, Lit::from_code(code), 1) {
            return Some(lit);
        }
    }
    None
}

// The mark of gate k, as far as a word holds it.
#[tactic(auto, unfolding(crate::specs::Define::mark_of))]
fn mark_of(k: usize) -> u32
    requires { k < 2 ^ 62 }
    ensures { result ≡ mark_of k }
{
    ((k + 2) % 4294967296) as u32
}

// Gate outputs, of flat gates.
#[tactic(auto, using(crate::proofs::Definitions::gates_drop, crate::proofs::Definitions::gates_past), unfolding(crate::specs::Define::define_gates))]
fn define_gates(table: &mut [u32], gates: &[u32]) -> Option<Lit>
    ensures { tabled table.new result ≡ define_gates table.old (gates_of gates.now) 0 }
{
    // By index: the mark is the gate's number, which a walk over chunks would have to count besides.
    for k in 0..gates.len() / 3 {
        if let Some(lit) = define(table, Lit::from_code(gates[3 * k]), mark_of(k)) {
            return Some(lit);
        }
    }
    None
}

// Marks the constant, the inputs, the gates' outputs and the latch states in turn, and says what check 5 or 6 refuses: of a table of zeros, with a
// word for each variable.
#[tactic(auto, unfolding(crate::specs::Define::define_all))]
pub fn define_all(table: &mut [u32], lists: &CircuitLists) -> Result<(), Refusal>
    ensures { judged table.new result ≡ define_all table.old lists.now.inputs.now lists.now.states.now
        (gates_of lists.now.gates.now) }
{
    store(table, 0, 1);
    if let Some(lit) = define_sources(table, lists.inputs) {
        return Err(Refusal::Again(lit));
    }
    if let Some(lit) = define_gates(table, lists.gates) {
        return Err(Refusal::Again(lit));
    }
    if let Some(lit) = define_sources(table, lists.states) {
        return Err(Refusal::StateAgain(lit));
    }
    Ok(())
}

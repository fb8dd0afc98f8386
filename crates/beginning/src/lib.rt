// What stands in the lent lists when the walks begin: the table of definitions, the map at the start, and zeros.
#![tactic(auto)]

ghost use Rattle.std.specs.Prelude.{◌≡◌};
ghost use Rattle.beginning.specs.Beginning.{ready_of, prepared};

use circuit::{CircuitLists, CircuitRecord, Refusal};
use lent::words::{fill_front, wide};

// Checks 5 and 6, which leave the table of definitions in the front of a clean scratch; the map at the start; no gate. A map or a scratch with too few
// words for the variables is refused, and nothing is written.
#[tactic(auto, unfolding(crate::specs::Beginning::prepared))]
pub fn prepare(
    circuit: CircuitRecord,
    lists: &CircuitLists,
    map: &mut [u32],
    gates_out: &mut [u32],
    scratch: &mut [u32],
) -> Result<(), Refusal>
    ensures { ready_of result map.new gates_out.new scratch.new ≡ prepared circuit.top.0 lists.now.inputs.now
        lists.now.states.now lists.now.gates.now map.old gates_out.old scratch.old }
{
    let top = circuit.top;
    let n = wide(top.index()) + 1;
    let g = lists.gates.len() / 3;
    if map.len() < n || scratch.len() < n {
        return Err(Refusal::Short);
    }
    images::begin(&mut map[..n], lists.inputs, lists.states);
    fill_front(gates_out, 2 * g, 0);
    fill_front(scratch, 3 * n + 3 * g, 0);
    defs::define_all(&mut scratch[..n], lists)
}

// Checks 5 and 6 and all walks of a circuit, in the fronts of lent lists.
ghost use Rattle.circuit.specs.Circuit.{numbered};
ghost use Rattle.circuit.specs.Outcome.{circuit_of};
ghost use Rattle.checks.specs.Bare.{unset_with};
ghost use Rattle.aig.specs.Walked.{WalkIn, EndsIn};

use crate::order;
use crate::shape::Shape;
use circuit::{CircuitLists, CircuitRecord, Refusal};
use lent::words::wide;

// Checks 5 and 6; then gate outputs unless trimmed, next states and roots are walked. No reset is seen: the circuit stands here with none.
pub fn walk_all(
    circuit: CircuitRecord,
    lists: &CircuitLists,
    map: &mut [u32],
    gates_out: &mut [u32],
    scratch: &mut [u32],
) -> Result<usize, Refusal>
    requires { WalkIn (unset_with circuit lists.now) map.old gates_out.old scratch.old }
    ensures { EndsIn (circuit_of (unset_with circuit lists.now)) map.old gates_out.old scratch.old
        (numbered (circuit_of (unset_with circuit lists.now))) result map.new gates_out.new scratch.new }
{
    beginning::prepare(circuit, lists, map, gates_out, scratch)?;
    let vars = wide(circuit.top.index()) + 1;
    let count = lists.gates.len() / 3;
    let shape = Shape {
        vars,
        gates: count,
        sources: lists.inputs.len() + lists.states.len(),
        hash: circuit.hash,
        fold: circuit.fold,
    };
    order::walked(
        circuit.trim,
        lists.nexts,
        lists.roots,
        shape,
        lists.gates,
        &mut map[..vars],
        &mut gates_out[..2 * count],
        &mut scratch[..3 * vars + 3 * count],
    )
}

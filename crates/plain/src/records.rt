// Renumbering with gates that are records, of a circuit that has two of them: they come by value, in the place of the lists' own, and are lent to the library.
ghost use Rattle.std.specs.Prelude.{◌≡◌};
ghost use Rattle.circuit.specs.Passed.{lent_in, left_in};
ghost use Rattle.aig_records.specs.Records.{flat_of};
ghost use Rattle.aig_records.specs.Outcome.{with_flat, outcome_of_records};

use aig_records::{GateRecord, RecordLists};
use circuit::{CircuitLists, CircuitRecord, CircuitRoom, Refusal, Summary};

pub fn renumber_two(
    circuit: CircuitRecord,
    lists: &CircuitLists,
    gates: [GateRecord; 2],
    room: CircuitRoom,
    flat: &mut [u32],
) -> Result<Summary, Refusal>
    ensures { with_flat (left_in result room.exit) flat.new
        ≡ outcome_of_records (record (lent_in circuit lists.now room.entry) { gates = flat_of gates }) flat.old }
{
    let lists = RecordLists {
        inputs: lists.inputs,
        states: lists.states,
        nexts: lists.nexts,
        resets: lists.resets,
        gates: &gates,
        roots: lists.roots,
    };
    let CircuitRoom {
        map,
        next_images,
        reset_images,
        root_images,
        gates_out,
        scratch,
    } = room;
    let room = CircuitRoom {
        map,
        next_images,
        reset_images,
        root_images,
        gates_out,
        scratch,
    };
    let answer = aig_records::renumber_records(circuit, &lists, room, flat);
    answer
}

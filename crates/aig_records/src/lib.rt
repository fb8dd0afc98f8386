// Renumbering where the gates come as records, each an output and two inputs: a thin entry on top of the one for flat gates.
#![tactic(auto)]

mod records;
mod verdict;

ghost use Rattle.std.specs.Prelude.{◌≡◌};
ghost use Rattle.circuit.specs.Passed.{left_in};
ghost use Rattle.aig_records.specs.Passed.{lent_in};
ghost use Rattle.aig_records.specs.Outcome.{with_flat, outcome_of_records};

use checks::Lengths;
use circuit::{CircuitLists, CircuitRecord, CircuitRoom, Refusal, Summary};
use lit::Lit;

// A gate by its output and its two inputs.
#[derive(Clone, Copy)]
pub struct GateRecord {
    pub output: Lit,
    pub first: Lit,
    pub second: Lit,
}

// The lists of a circuit, where the gates are records.
#[derive(Clone, Copy)]
pub struct RecordLists<'a> {
    pub inputs: &'a [u32],
    pub states: &'a [u32],
    pub nexts: &'a [u32],
    pub resets: &'a [u32],
    pub gates: &'a [GateRecord],
    pub roots: &'a [u32],
}

// Renumbers a circuit as `aig::renumber` does, with gates that are records. Their codes are laid flat in the first words of `flat`, three a record,
// once checks 1 to 4 and 22 have passed; afterwards those words are 0. Refusals 1 to 4 and 22 write nothing; 3 is given also where `flat` is too
// short.
pub fn renumber_records(
    circuit: CircuitRecord,
    lists: &RecordLists,
    room: CircuitRoom,
    flat: &mut [u32],
) -> Result<Summary, Refusal>
    ensures { with_flat (left_in result room.exit) flat.new ≡ outcome_of_records (lent_in circuit lists.now room.entry) flat.old }
{
    let n = Lengths {
        inputs: lists.inputs.len(),
        states: lists.states.len(),
        nexts: lists.nexts.len(),
        resets: lists.resets.len(),
        gates: lists.gates.len(),
        left_over: 0,
        roots: lists.roots.len(),
        map: room.map.len(),
        next_images: room.next_images.len(),
        reset_images: room.reset_images.len(),
        root_images: room.root_images.len(),
        gates_out: room.gates_out.len(),
        scratch: room.scratch.len(),
    };
    verdict::judge(circuit, n, flat.len(), lists)?;
    records::flatten(lists.gates, flat);
    let words = lists.gates.len() * 3;
    let laid = CircuitLists {
        inputs: lists.inputs,
        states: lists.states,
        nexts: lists.nexts,
        resets: lists.resets,
        gates: &flat[..words],
        roots: lists.roots,
    };
    let CircuitRoom {
        map,
        next_images,
        reset_images,
        root_images,
        gates_out,
        scratch,
    } = room;
    let room = CircuitRoom {
        map,
        next_images,
        reset_images,
        root_images,
        gates_out,
        scratch,
    };
    let answer = aig::renumber(circuit, &laid, room);
    flat[..words].fill(0);
    answer
}

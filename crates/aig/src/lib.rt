// Renumbering of AIGER circuits in lent lists: literals get new codes so that a gate's code is larger than those of its inputs.
#![tactic(auto)]

mod flat;
mod order;
mod shape;
mod stack;
mod store;
mod table;
mod trie;
mod walk;
mod walks;

ghost use Rattle.std.specs.Prelude.{◌≡◌};
ghost use Rattle.circuit.specs.Map.{image_of};
ghost use Rattle.circuit.specs.Outcome.{outcome};
ghost use Rattle.circuit.specs.Passed.{lent_in, left_in};

use circuit::{CircuitLists, CircuitRecord, CircuitRoom, Refusal, Summary};
use lent::map;
use lit::{Lit, Var};

// The image of a literal in a map that `renumber` wrote, where `top` is the largest variable that it was given: over that, or past the lent map,
// there is none.
#[tactic(auto, unfolding(circuit::specs::Map::image_of))]
pub fn lookup(map: &[u32], top: Var, lit: Lit) -> Option<Lit>
    ensures { result ≡ image_of top.0 map.now lit.0 }
{
    if top < lit.var() {
        return None;
    }
    map::image(map, lit)
}

// Renumbers a circuit: answers the number of gates made and the new largest variable, or why not. Roots stand in walk order: outputs, bad states,
// constraints, fairness, justice. A latch's reset is 0, 1 or, unset, its own literal, which comes out as
// the new one. Gates come flat, output, first and second input, and go out as pairs, larger input first. Refusals 1 to 4 and 22 write nothing; the
// others clear the lent lists as far as they are named.
pub fn renumber(
    circuit: CircuitRecord,
    lists: &CircuitLists,
    room: CircuitRoom,
) -> Result<Summary, Refusal>
    ensures { left_in result room.exit ≡ outcome (lent_in circuit lists.now room.entry) }
{
    let CircuitRoom {
        map,
        next_images,
        reset_images,
        root_images,
        gates_out,
        scratch,
    } = room;
    checks::checked(
        circuit,
        lists,
        map,
        next_images,
        reset_images,
        root_images,
        gates_out,
        scratch,
    )?;
    let end = walks::walk_all(circuit, lists, map, gates_out, scratch);
    let room = CircuitRoom {
        map,
        next_images,
        reset_images,
        root_images,
        gates_out,
        scratch,
    };
    let answer = ending::conclude(end, circuit, lists, room);
    answer
}

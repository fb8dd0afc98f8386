// How renumbering ends: with the images and the answer of a success, or with cleared lists. Each function takes whatever it is lent.
#![tactic(auto)]

ghost use Rattle.std.specs.Prelude.{◌≡◌, ◌%◌, ◌^◌};
ghost use Rattle.circuit.specs.Passed.{lent_in, left_in};
ghost use Rattle.ending.specs.Ending.{made_with, ended};

use circuit::{CircuitLists, CircuitRecord, CircuitRoom, Refusal, Summary};
use lent::map::NO_IMAGE;
use lent::words::{fill_front, wide};
use lit::Var;

// The number's last 32 bits.
fn low(x: usize) -> u32
    ensures { result ≡ x % 2 ^ 32 }
{
    (x % 4294967296) as u32
}

// So many gates were made after so many inputs and latches, as far as words hold the numbers.
fn renumbered(sources: usize, made: usize) -> Result<Summary, Refusal>
    ensures { result ≡ made_with sources made }
{
    let made = low(made);
    let top = low(sources % 4294967296 + wide(made));
    Ok(Summary {
        made,
        top: Var::from_index(top),
    })
}

// After the walks, with so many gates made or refused: the images, the resets, a clear scratch and the answer of a success; or the refusal, and what it
// leaves of each lent list.
#[tactic(auto, using(circuit::proofs::Words::gates_length), unfolding(crate::specs::Ending::ended))]
pub fn conclude(
    end: Result<usize, Refusal>,
    circuit: CircuitRecord,
    lists: &CircuitLists,
    room: CircuitRoom,
) -> Result<Summary, Refusal>
    ensures { left_in result room.exit ≡ ended end (lent_in circuit lists.now room.entry) }
{
    let top = circuit.top;
    let n = wide(top.index()) + 1;
    let g = lists.gates.len() / 3;
    let words = 3 * n + 3 * g;
    let CircuitRoom {
        map,
        next_images,
        reset_images,
        root_images,
        gates_out,
        scratch,
    } = room;
    match end {
        Ok(made) => {
            images::images(map, lists.nexts, next_images);
            images::carry(lists.resets, lists.inputs.len(), reset_images);
            images::images(map, lists.roots, root_images);
            fill_front(scratch, words, 0);
            renumbered(lists.inputs.len() + lists.states.len(), made)
        }
        Err(why) => {
            fill_front(map, n, NO_IMAGE);
            fill_front(next_images, lists.states.len(), 0);
            fill_front(reset_images, lists.states.len(), 0);
            fill_front(root_images, lists.roots.len(), 0);
            fill_front(gates_out, 2 * g, 0);
            fill_front(scratch, words, 0);
            Err(why)
        }
    }
}

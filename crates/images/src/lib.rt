// The map at the start, the images of whole lists, and resets carried over. Each public function takes whatever it is lent.
#![tactic(auto)]

ghost use Rattle.std.specs.Prelude.{◌≡◌, ◌+◌, ◌*◌, ◌^◌, ◌<◌, length};
ghost use Rattle.circuit.specs.Circuit.{store_from};
ghost use Rattle.circuit.specs.Ordered.{images_in, carried, carried_from};
ghost use Rattle.images.specs.Begin.{begun, carried_onto};
ghost use Rattle.circuit.specs.Outcome.{onto};

use circuit::LIMIT;
use lent::{map, words};
use lit::Lit;

// Gives the literals of a list the codes first, first + 2, ..
fn store_from(map: &mut [u32], literals: &[u32], first: u32)
    requires { first + 2 * length literals.now < 2 ^ 32 }
    ensures { map.new ≡ store_from map.old first literals.now }
{
    let mut code = first;
    for literal in literals {
        map::insert(map, Lit::from_code(*literal), Lit::from_code(code));
        code += 2;
    }
}

// The map at the start: the constant is 0, inputs and then latch states get 2, 4, .., and nothing else has an image. Where there are more inputs or
// latches than check 1 lets by, the map stays.
#[tactic(auto, unfolding(crate::specs::Begin::begun))]
pub fn begin(map: &mut [u32], inputs: &[u32], states: &[u32])
    ensures { map.new ≡ begun map.old inputs.now states.now }
{
    if LIMIT < inputs.len() || LIMIT < states.len() {
        return;
    }
    words::fill(map, map::NO_IMAGE);
    map::insert(map, Lit::from_code(0), Lit::from_code(0));
    store_from(map, inputs, 2);
    store_from(map, states, (2 + 2 * inputs.len()) as u32);
}

// The image of each literal of a list, onto the front of another.
pub fn images(map: &[u32], literals: &[u32], out: &mut [u32])
    ensures { out.new ≡ onto (images_in map.now literals.now) out.old }
{
    let count = literals.len().min(out.len());
    // by index: tried as `out.iter_mut().zip(literals)`, and the proof does not close, as nothing is known of the list afterwards
    for i in 0..count {
        out[i] = map::code_of(map::image(map, Lit::from_code(literals[i])));
    }
}

// A reset carried over: 0 and 1 stay, and that of an unset latch is its new literal.
fn renewed(own: u32, reset: u32) -> u32
    ensures { result ≡ carried own reset }
{
    if reset <= 1 { reset } else { own }
}

// The same of a list of resets, onto the front of another, where the latches have the new literals first, first + 2, ..
fn carry_from(resets: &[u32], first: u32, list: &mut [u32])
    requires { first + 2 * length resets.now < 2 ^ 32 }
    ensures { list.new ≡ onto (carried_from first resets.now) list.old }
{
    let count = resets.len().min(list.len());
    let mut own = first;
    // by index, as in `images`
    for i in 0..count {
        list[i] = renewed(own, resets[i]);
        own += 2;
    }
}

// The resets of all latches, which come after so many inputs. Where there are more inputs or latches than check 1 lets by, the list stays.
#[tactic(auto, unfolding(crate::specs::Begin::carried_onto))]
pub fn carry(resets: &[u32], inputs: usize, out: &mut [u32])
    ensures { out.new ≡ carried_onto inputs resets.now out.old }
{
    if LIMIT < inputs || LIMIT < resets.len() {
        return;
    }
    carry_from(resets, (2 + 2 * inputs) as u32, out);
}

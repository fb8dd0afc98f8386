// The gates made, in the scratch words after the definitions, as a binary trie for each variable that is a larger input: a head for each variable,
// then the left link of each gate, then the right one. A place holds 0 where it is free, and k + 1 where gate k is. A gate's key is the sign of its
// larger code and then the bits of its smaller one, lowest first; the next bit of the key leads from a gate to its left link or its right one.
ghost use Rattle.std.specs.Prelude.{◌≡◌, ◌+◌, ◌%◌, ◌<◌, ◌≤◌, true};
ghost use Rattle.aig.specs.Layout.{Room, links_at, stack_at};
ghost use Rattle.aig.specs.Already.{made_before, CanSeek, Answers};
ghost use Rattle.aig.specs.Trie.{link_at, linked};
ghost use Rattle.aig.specs.Store.{code_at};
ghost use Rattle.aig.specs.Settle.{linked_if};

use crate::shape::Shape;
use crate::store;
use fold::Pair;
use lent::words::{place_of, wide};
use lit::Lit;

// A key has at most so many bits: V is at most 1,048,575, so that a code, at most 2V+1, is below 2^21; and the sign is one bit more.
const BITS: usize = 22;

// What a search comes to: the code that stands for a gate, or the free place where the gate is to be linked. An enum of its own, since both are ways
// to go on: a place is no error.
#[derive(Clone, Copy)]
pub enum Search {
    Found(Lit),
    Free(usize),
}

// The code of gate k.
#[tactic(auto, unfolding(circuit::specs::Walk::first_code))]
pub fn code_at(shape: Shape, k: usize) -> Lit
    requires { (shape.sources ≤ 1048576) × (k ≤ 1048576) }
    ensures { result ≡ code_at shape k }
{
    Lit::from_code((2 * (shape.sources + 1) + 2 * k) as u32)
}

// The link of gate k that the key's next bit leads to: the left one for 0, the right one for 1.
fn link_of(shape: Shape, key: u32, k: usize) -> usize
    requires { (shape.vars ≤ 1048576) × (k ≤ 1048576) }
    ensures { result ≡ links_at shape + link_at shape.vars (key % 2) k }
{
    if key % 2 == 0 {
        return 2 * shape.vars + k;
    }
    3 * shape.vars + k
}

// The gate with this pair, if it was made; else the free place where the key's way ends, for `link`. Each turn follows a link, so there are at most 22.
// Gates have distinct pairs, and a gate that is met agrees with the key in the bits that led to it: one that all bits lead to has the pair.
pub fn find(shape: Shape, pair: Pair, out: &[u32], scratch: &[u32]) -> Search
    requires { (shape.hash ≡ true) × CanSeek shape pair out.now scratch.now }
    ensures { Answers made_before shape pair out.now scratch.now result }
{
    let mut place = shape.vars + place_of(pair.larger);
    let mut key = 2 * pair.smaller.code() + pair.larger.code() % 2;
    for _ in 0..BITS {
        // by a test and a difference: the option that `checked_sub` answers costs instructions at each link
        let linked = wide(scratch[place]);
        if linked == 0 {
            return Search::Free(place);
        }
        let k = linked - 1;
        if store::is_at(out, k, pair) {
            return Search::Found(code_at(shape, k));
        }
        place = link_of(shape, key, k);
        key /= 2;
    }
    let Some(k) = wide(scratch[place]).checked_sub(1) else {
        return Search::Free(place);
    };
    Search::Found(code_at(shape, k))
}

// Puts gate `made` in a free place.
pub fn link(shape: Shape, made: usize, place: usize, scratch: &mut [u32])
    requires { Room shape scratch.old × (made < shape.gates) × (place < stack_at shape) }
    ensures { scratch.new ≡ linked made place scratch.old }
{
    scratch[place] = (made + 1) as u32;
}

// The same, if gates are to be found again.
pub fn link_if(shape: Shape, made: usize, place: usize, scratch: &mut [u32])
    requires { Room shape scratch.old × (made < shape.gates) × (shape.hash ≡ true → place < stack_at shape) }
    ensures { scratch.new ≡ linked_if shape.hash made place scratch.old }
{
    if shape.hash {
        link(shape, made, place, scratch);
    }
}

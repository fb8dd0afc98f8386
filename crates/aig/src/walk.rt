// The walk of one literal. Each step takes the numbers of the walk and hands them on to the next; what the machine of the definitions comes to, the
// walk comes to.
ghost use Rattle.std.specs.Prelude.{◌≡◌, ℕ, ◌+◌, ◌-◌, ◌*◌, ◌^◌, ◌<◌, List};
ghost use Rattle.aig.specs.Already.{made_if, already_in, CanSeek, Answers};
ghost use Rattle.aig.specs.Settle.{numbers, SettledIn, CanSettle};
ghost use Rattle.aig.specs.Turns.{Walking, Turns, Runs};

use crate::shape::Shape;
use crate::stack::Frame;
use crate::trie::Search;
use crate::{flat, stack, store, table, trie};
use circuit::Refusal;
use fold::Pair;
use lent::map;
use lit::Lit;

// The numbers that a step hands on: entries on the stack, gates made.
#[derive(Clone, Copy)]
pub struct Walk {
    pub depth: usize,
    pub made: usize,
}

// Where the walk stands. An enum of its own: a step answers the next state, and only two of the six are an end.
#[derive(Clone, Copy)]
pub enum State {
    // a literal is about to be walked
    Transfer(Walk, Lit),
    // the first input of a literal has its image, or the second
    First(Walk, Lit),
    Second(Walk, Lit),
    // a literal has its image
    Return(Walk),
    Reached(Walk),
    Stopped(Refusal),
}

impl Walk {
    // An empty stack.
    pub fn start(made: usize) -> Walk
        ensures { result ≡ numbers 0 made }
    {
        Walk { depth: 0, made }
    }

    fn deeper(self) -> Walk
        requires { self.depth < 2 ^ 32 }
        ensures { result ≡ numbers (self.depth + 1) self.made }
    {
        Walk {
            depth: self.depth + 1,
            ..self
        }
    }

    fn shallower(self) -> Walk
        requires { 0 < self.depth }
        ensures { result ≡ numbers (self.depth - 1) self.made }
    {
        Walk {
            depth: self.depth - 1,
            ..self
        }
    }

    fn with_gate(self) -> Walk
        requires { self.made < 2 ^ 32 }
        ensures { result ≡ numbers self.depth (self.made + 1) }
    {
        Walk {
            made: self.made + 1,
            ..self
        }
    }

    // A literal with an image returns at once; one that is the middle of the path, or has no gate, is refused; else its gate is entered.
    fn transfer(
        self,
        shape: Shape,
        lit: Lit,
        gates: &[u32],
        map: &[u32],
        scratch: &mut [u32],
    ) -> State
        requires { (out : List ℕ) × Walking shape gates.now (State.Transfer self lit) map.now out scratch.old }
        ensures { (out : List ℕ) → Turns shape gates.now (State.Transfer self lit) map.now out scratch.old result
            map.now out scratch.new }
    {
        if map::image(map, lit).is_some() {
            return State::Return(self);
        }
        if stack::middle(scratch, shape, self.depth, lit) {
            return State::Stopped(Refusal::Cycle(lit));
        }
        let Some(k) = table::gate_of(scratch, lit) else {
            return State::Stopped(Refusal::Undefined(lit));
        };
        stack::push(scratch, shape, self.depth, Frame::First(lit));
        State::Transfer(self.deeper(), flat::first_of(gates, k))
    }

    // The first input has its image: the second is next.
    fn first_input(self, shape: Shape, lit: Lit, gates: &[u32], scratch: &mut [u32]) -> State
        requires { (map : List ℕ) × (out : List ℕ) × Walking shape gates.now (State.First self lit) map out scratch.old }
        ensures { (map out : List ℕ) → Turns shape gates.now (State.First self lit) map out scratch.old result map out
            scratch.new }
    {
        let Some(k) = table::gate_of(scratch, lit) else {
            return State::Stopped(Refusal::Undefined(lit));
        };
        stack::push(scratch, shape, self.depth, Frame::Second(lit));
        State::Transfer(self.deeper(), flat::second_of(gates, k))
    }

    // Both inputs have their images: the gate is settled.
    fn second_input(
        self,
        shape: Shape,
        lit: Lit,
        gates: &[u32],
        map: &mut [u32],
        out: &mut [u32],
        scratch: &mut [u32],
    ) -> State
        requires { Walking shape gates.now (State.Second self lit) map.old out.old scratch.old }
        ensures { Turns shape gates.now (State.Second self lit) map.old out.old scratch.old result
            map.new out.new scratch.new }
    {
        let Some(k) = table::gate_of(scratch, lit) else {
            return State::Stopped(Refusal::Undefined(lit));
        };
        let first = flat::first_of(gates, k);
        let Some(x) = map::image(map, first) else {
            return State::Stopped(Refusal::Undefined(first));
        };
        let second = flat::second_of(gates, k);
        let Some(y) = map::image(map, second) else {
            return State::Stopped(Refusal::Undefined(second));
        };
        self.settle(
            shape,
            flat::output_of(gates, k),
            Pair::of(x, y),
            map,
            out,
            scratch,
        )
    }

    // The output gets the code that stands for the gate already, or that of a gate made.
    fn settle(
        self,
        shape: Shape,
        output: Lit,
        pair: Pair,
        map: &mut [u32],
        out: &mut [u32],
        scratch: &mut [u32],
    ) -> State
        requires { CanSettle shape self pair out.old scratch.old }
        ensures { SettledIn shape self output pair map.old out.old scratch.old (record {
          state = result;
          map = map.new;
          out = out.new;
          scratch = scratch.new;
        }) }
    {
        match already(shape, pair, out, scratch) {
            Search::Found(t) => {
                map::insert(map, output, t);
                State::Return(self)
            }
            // the one place where a gate is made
            Search::Free(place) => {
                trie::link_if(shape, self.made, place, scratch);
                store::append(out, self.made, pair);
                map::insert(map, output, trie::code_at(shape, self.made));
                State::Return(self.with_gate())
            }
        }
    }

    // A literal has its image: the entry on top says whose input it was. (`return` is a keyword.)
    fn back(self, shape: Shape, scratch: &[u32]) -> State
        requires { (gates : List ℕ) × (map : List ℕ) × (out : List ℕ) × Walking shape gates (State.Return self) map out scratch.now }
        ensures { (gates map out : List ℕ) → Turns shape gates (State.Return self) map out scratch.now result map out scratch.now }
    {
        if self.depth == 0 {
            return State::Reached(self);
        }
        let walk = self.shallower();
        match stack::entry(scratch, shape, walk.depth) {
            Frame::First(lit) => State::First(walk, lit),
            Frame::Second(lit) => State::Second(walk, lit),
        }
    }
}

// The code that stands for a gate already, as the flags allow it: folding first, then a gate made. If there is none, the place for the gate.
fn already(shape: Shape, pair: Pair, out: &[u32], scratch: &[u32]) -> Search
    requires { CanSeek shape pair out.now scratch.now }
    ensures { Answers already_in shape pair out.now scratch.now result }
{
    if let Some(t) = pair.folded_if(shape.fold) {
        return Search::Found(t);
    }
    found_if(shape, pair, out, scratch)
}

// The same without folding: a gate is looked for where hashing is on.
fn found_if(shape: Shape, pair: Pair, out: &[u32], scratch: &[u32]) -> Search
    requires { CanSeek shape pair out.now scratch.now }
    ensures { Answers made_if shape pair out.now scratch.now result }
{
    if shape.hash {
        return trie::find(shape, pair, out, scratch);
    }
    // without hashing nothing is linked
    Search::Free(0)
}

// Walks from a state to the end.
pub fn run(
    start: State,
    shape: Shape,
    gates: &[u32],
    map: &mut [u32],
    out: &mut [u32],
    scratch: &mut [u32],
) -> Result<usize, Refusal>
    requires { Walking shape gates.now start map.old out.old scratch.old }
    ensures { Runs shape gates.now start map.old out.old scratch.old result map.new
        out.new scratch.new }
{
    let mut state = start;
    loop {
        state = match state {
            State::Transfer(walk, lit) => walk.transfer(shape, lit, gates, map, scratch),
            State::First(walk, lit) => walk.first_input(shape, lit, gates, scratch),
            State::Second(walk, lit) => walk.second_input(shape, lit, gates, map, out, scratch),
            State::Return(walk) => walk.back(shape, scratch),
            State::Reached(walk) => return Ok(walk.made),
            State::Stopped(why) => return Err(why),
        };
    }
}

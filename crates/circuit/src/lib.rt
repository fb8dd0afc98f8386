// What renumbering answers, as types that callers hold. Their meaning is in specs/ and the theorems about it in proofs/; the code that gives these
// answers is a crate above this one.
#![tactic(auto)]

use lit::{Lit, Var};

// The largest V, I, L, G and R that are taken: `limit` of specs/Outcome.antt.
pub const LIMIT: usize = 1048575;

// Why a circuit is refused; the literal is the one at fault.
#[derive(Clone, Copy)]
pub enum Refusal {
    TooBig,
    Misshapen,
    Short,
    Over(Lit),
    Reset(Lit),
    Again(Lit),
    StateAgain(Lit),
    Undefined(Lit),
    Cycle(Lit),
}

// What a success answers: the number of gates made, and the new largest variable.
#[derive(Clone, Copy)]
pub struct Summary {
    pub made: u32,
    pub top: Var,
}

// A circuit but for its lists: the largest variable, the numbers of outputs, bad states, constraints, fairness and justice literals, the flags.
#[derive(Clone, Copy)]
pub struct CircuitRecord {
    pub top: Var,
    pub counts: [u32; 5],
    pub trim: bool,
    pub hash: bool,
    pub fold: bool,
}

// The lists of a circuit, which are only read: inputs, the latches' states, next states and resets side by side, gates three words each, and roots in
// walk order.
#[derive(Clone, Copy)]
pub struct CircuitLists<'a> {
    pub inputs: &'a [u32],
    pub states: &'a [u32],
    pub nexts: &'a [u32],
    pub resets: &'a [u32],
    pub gates: &'a [u32],
    pub roots: &'a [u32],
}

// The lists that renumbering writes.
#[derive(Drop)]
pub struct CircuitRoom<'a> {
    pub map: &'a mut [u32],
    pub next_images: &'a mut [u32],
    pub reset_images: &'a mut [u32],
    pub root_images: &'a mut [u32],
    pub gates_out: &'a mut [u32],
    pub scratch: &'a mut [u32],
}
